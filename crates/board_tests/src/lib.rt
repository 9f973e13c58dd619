#![tactic(auto)]

// The board by example.
#[cfg(test)]
mod examples;
