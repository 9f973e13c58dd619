#![tactic(auto)]

// The rules of tasks, lists and sheets, by example.
#[cfg(test)]
mod examples;
