// Tasks and task lists, and reading them from a sheet.
#![tactic(auto)]

pub mod fault;
pub mod list;
pub mod order;
pub mod read;
pub mod record;
pub mod table;
pub mod task;
