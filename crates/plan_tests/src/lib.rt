#![tactic(auto)]

// Placing and checking by example.
#[cfg(test)]
mod tables;
