// What a table does.
ghost use Rattle.std.specs.Prelude.{◌≡◌, []};
ghost use Rattle.tasks.specs.List.{held};
ghost use Rattle.tasks.specs.Tables.{Pushed};

use crate::fault::ListFault;
use crate::record::TaskRecord;
use crate::table::{MOST_TASKS, Table};

impl Table {
    // A table that holds nothing.
    pub fn empty() -> Table
        ensures { held result ≡ [] }
    {
        Table {
            places: [TaskRecord::default(); MOST_TASKS],
            len: 0,
        }
    }

    // One record more at the end, or a refusal where every place is taken.
    pub fn push(&mut self, numbers: TaskRecord) -> Result<(), ListFault>
        ensures { Pushed numbers self.old result self.new }
    {
        if self.len >= MOST_TASKS {
            return Err(ListFault::TooMany);
        }
        self.places[self.len] = numbers;
        self.len += 1;
        Ok(())
    }

    // What it holds, in order.
    pub fn records(&self) -> &[TaskRecord]
        ensures { result.now ≡ held self.now }
    {
        &self.places[0..self.len]
    }
}
