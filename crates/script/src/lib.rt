// A recorded day: what its lines say, and the text that answers it.
#![tactic(auto)]

pub mod calls;
pub mod day;
pub mod headings;
pub mod opening;
pub mod session;
pub mod texts;
