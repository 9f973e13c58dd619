#![tactic(auto)]

// The fit tests by example: tables of questions with their answers.
#[cfg(test)]
mod tables;
