// Reading text: the first bytes of an input, its lines, and the words, numbers and bytes that a line spells.
#![tactic(auto)]

pub mod hex;
pub mod input;
pub mod lines;
pub mod number;
