// A task that keeps its bounds, whatever list it stands in.
ghost use Rattle.std.specs.Prelude.{◌≡◌, MatchOption};
ghost use Rattle.tasks.specs.Task.{Bounded, widest_grid};

use crate::record::TaskRecord;

// The widest grid a list may have, and so the widest gap a task may have.
pub const WIDEST_GRID: u32 = 16_777_216;

// No task exists that breaks a bound on work, limit or gap.
#[derive(Clone, Copy, Debug, PartialEq, Eq)]
pub struct Task {
    numbers: TaskRecord,
    ghost bounded: { Bounded widest_grid numbers },
}

impl Task {
    // The task of these numbers, or none where they break a bound.
    pub fn new(numbers: TaskRecord) -> Option<Task>
        ensures { MatchOption result (Bounded widest_grid numbers → ⊥) (λ t. t.numbers ≡ numbers) }
    {
        if numbers.bounded(WIDEST_GRID) {
            Some(Task { numbers })
        } else {
            None
        }
    }

    // Its work, limit and gap.
    pub fn numbers(&self) -> TaskRecord
        ensures { result ≡ self.now.numbers }
    {
        self.numbers
    }
}
