// A task sheet as bytes: what it spells, and the faults of bytes that spell none.
#![tactic(auto)]

pub mod fault;
pub mod part;
pub mod reader;
mod steps;
