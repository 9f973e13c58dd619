// Making a list, filling it, and looking at it.
ghost use Rattle.std.specs.Prelude.{◌≡◌, ◌<◌, ◌≤◌, [], length, MatchOption, slice_index_or};
ghost use Rattle.tasks.specs.Filling.{Added, Emptied, IsList, tasks_of};
ghost use Rattle.tasks.specs.List.{blank};
ghost use Rattle.tasks.specs.Order.{rank_of};

use crate::fault::{ListFault, Setting};
use crate::list::TaskList;
use crate::order::Rank;
use crate::record::TaskRecord;
use crate::table::{MOST_TASKS, Table};
use crate::task::{Task, WIDEST_GRID};

// The most lanes a box may have.
const MOST_LANES: u8 = 4;

impl TaskList {
    // The list that every box begins with: grid 1, one lane and no task.
    pub fn new() -> TaskList
        ensures { IsList result 1 1 [] }
    {
        TaskList {
            grid: 1,
            lanes: 1,
            table: Table::empty(),
        }
    }

    // Makes the list empty, with this grid and lane count.
    pub fn start(&mut self, grid: u32, lanes: u8) -> Result<(), ListFault>
        ensures { Emptied grid lanes self.old result self.new }
    {
        if grid < 1 || grid > WIDEST_GRID {
            return Err(ListFault::OutOfRange(Setting::Grid));
        }
        if lanes < 1 || lanes > MOST_LANES {
            return Err(ListFault::OutOfRange(Setting::Lanes));
        }
        *self = TaskList {
            grid,
            lanes,
            table: Table::empty(),
        };
        Ok(())
    }

    // Adds a task under the next number.
    pub fn add(&mut self, numbers: TaskRecord) -> Result<(), ListFault>
        ensures { Added numbers self.old result self.new }
    {
        let number = self.len();
        if number >= MOST_TASKS {
            return Err(ListFault::TooMany);
        }
        if !numbers.bounded(self.grid) {
            return Err(ListFault::Bound(number));
        }
        if self.grid % numbers.gap != 0 {
            return Err(ListFault::OffGrid(number));
        }
        self.table.push(numbers)
    }

    // The grid that every gap divides.
    pub fn grid(&self) -> u32
        ensures { result ≡ self.now.grid }
    {
        self.grid
    }

    // How many lanes the box has.
    pub fn lanes(&self) -> u8
        ensures { result ≡ self.now.lanes }
    {
        self.lanes
    }

    // How many tasks there are.
    pub fn len(&self) -> usize
        ensures { result ≡ length (tasks_of self.now) }
    {
        self.records().len()
    }

    // The tasks' numbers, in order.
    pub fn records(&self) -> &[TaskRecord]
        ensures { result.now ≡ tasks_of self.now }
    {
        self.table.records()
    }

    // The task with this number, if there is one.
    pub fn task(&self, number: usize) -> Option<Task>
        ensures { MatchOption result (length (tasks_of self.now) ≤ number) (λ t. (number < length (tasks_of self.now)) × (t.numbers ≡ slice_index_or (tasks_of self.now) number blank)) }
    {
        let numbers = self.records().get(number)?;
        Task::new(*numbers)
    }

    // Where the task with this number stands in the order of tasks, if there is one.
    pub fn rank(&self, number: usize) -> Option<Rank>
        ensures { MatchOption result (length (tasks_of self.now) ≤ number) (λ rank. (number < length (tasks_of self.now)) × (rank ≡ rank_of (tasks_of self.now) number)) }
    {
        let task = self.records().get(number)?;
        Some(Rank {
            limit: task.limit,
            number,
        })
    }
}
