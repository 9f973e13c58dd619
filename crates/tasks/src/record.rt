// The plain numbers of a task, lawful or not.
ghost use Rattle.std.specs.Prelude.{◌≡◌, Decides};
ghost use Rattle.sheet.specs.Reading.{entry_said};
ghost use Rattle.tasks.specs.Reading.{numbers_said};
ghost use Rattle.tasks.specs.Task.{Bounded};

use sheet::part::SheetRecord;

// A task's work, limit and gap in slots: the execution requirement, relative deadline and
// period (minimum inter-arrival separation) of Fisher, Baruah and Baker, ECRTS 2006, section 2.1.
#[derive(Clone, Copy, Debug, Default, PartialEq, Eq)]
pub struct TaskRecord {
    pub work: u32,
    pub limit: u32,
    pub gap: u32,
}

// The longest limit a task may have.
pub const LONGEST_LIMIT: u32 = 1_048_576;

impl TaskRecord {
    // Whether work, limit and gap keep their bounds, where no gap may pass `widest`.
    pub fn bounded(self, widest: u32) -> bool
        ensures { Decides result (Bounded widest self) }
    {
        1 <= self.work
            && self.work <= self.limit
            && self.work <= self.gap
            && self.gap <= widest
            && self.limit <= LONGEST_LIMIT
            && u64::from(self.limit) <= 4 * u64::from(self.gap)
    }
}

impl<'a> From<SheetRecord<'a>> for TaskRecord {
    ghost from_gives = { λ found r. r ≡ numbers_said (entry_said found) };

    fn from(found: SheetRecord<'a>) -> TaskRecord {
        TaskRecord {
            work: found.work,
            limit: found.limit,
            gap: found.gap,
        }
    }
}
