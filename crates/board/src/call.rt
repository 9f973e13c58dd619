// The calls that a board takes, and its answers.
use crate::fault::BoardFault;

// What a board is asked.
#[derive(Clone, Copy, Debug, PartialEq, Eq)]
pub enum Call {
    // Take a job of this task.
    Post(usize),
    // Open a slot.
    Begin,
    // Shut the slot. Bit k says that the job that lane k serves is finished.
    End(u8),
    // Which task does this lane serve in the open slot?
    Serving(usize),
    // How many jobs of this task wait?
    Waiting(usize),
    // What is the clock?
    Clock,
}

// What a board answers. Not a Result: it is the record of one call of a day, and the definitions range over such records.
#[derive(Clone, Copy, Debug, PartialEq, Eq)]
pub enum Answer {
    // The job was taken: the clock by which it will be closed.
    Posted(u64),
    // The slot is open. Bit k says that lane k has a job to serve.
    Begun(u8),
    // The slot is shut. Bit k says that the job that lane k served is closed.
    Ended(u8),
    // The task that the lane serves, or none.
    Serving(Option<usize>),
    // How many jobs of the task wait.
    Waiting(usize),
    // The clock.
    Clock(u64),
    // The call was refused, and nothing changed.
    Refused(BoardFault),
}

// A call, and the place for its answer.
#[derive(Clone, Copy, Debug, PartialEq, Eq)]
pub struct Entry {
    pub call: Call,
    pub answer: Option<Answer>,
}
