// Fit tests: may one more task join a lane? A yes is proved to keep it on time.
#![tactic(auto)]

mod askable;
pub mod either;
pub mod exact;
pub mod fractions;
pub mod linear;
pub mod question;
pub mod surcharge;
pub mod theorems;
