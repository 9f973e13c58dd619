#![tactic(auto)]

// Recorded days by example, and the input that they come from.
#[cfg(test)]
mod days;
#[cfg(test)]
mod inputs;
