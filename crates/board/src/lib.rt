// The board: jobs are posted to tasks, and slot by slot each lane serves one of them.
#![tactic(auto)]

pub mod board;
pub mod call;
pub mod fault;
mod jobs;
pub mod perform;
pub mod prepare;
mod seats;
mod task_queue;
pub mod theorems;
