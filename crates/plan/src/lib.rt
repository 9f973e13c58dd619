// Placing tasks on lanes, and checking any placing.
#![tactic(auto)]

pub mod check;
pub mod fault;
pub mod numbering;
pub mod place;
mod rows;
pub mod theorems;
mod turns;
