// The tasks that are on each lane so far.
ghost use Rattle.std.specs.Prelude.{◌≡◌, ℕ, ◌<◌, ◌≤◌, [], length, Decides};
ghost use Rattle.plan.specs.Steps.{FirstThatTakes, Joined, row_on};

use fit::question::FitTest;
use tasks::fault::ListFault;
use tasks::record::TaskRecord;
use tasks::table::Table;

// The row of each lane, in the order of tasks.
#[derive(Clone, Copy)]
pub(crate) struct Rows {
    lanes: [Table; 4],
    ghost four: { length lanes ≡ 4 },
}

impl Rows {
    // No task on any lane.
    pub(crate) fn empty() -> Rows
        ensures { (lane : ℕ) → row_on result.lanes lane ≡ [] }
    {
        Rows {
            lanes: [Table::empty(); 4],
        }
    }

    // Whether the test takes the task over those on the lane.
    pub(crate) fn takes<F: FitTest>(&self, lane: u8, test: &F, asked: TaskRecord) -> bool
        requires { lane < 4 }
        ensures { Decides result (F.FitTest.yes test.now (row_on self.now.lanes lane) asked) }
    {
        test.fits(self.lanes[lane as usize].records(), asked)
    }

    // The first lane of the box on which the test takes the task.
    pub(crate) fn first_that_takes<F: FitTest>(
        &self,
        lanes: u8,
        test: &F,
        asked: TaskRecord,
    ) -> Option<u8>
        requires { lanes ≤ 4 }
        ensures { FirstThatTakes (F.FitTest.yes test.now) self.now.lanes lanes asked result }
    {
        (0..lanes).find(|lane| self.takes(*lane, test, asked))
    }

    // One task more at the end of the lane's row.
    pub(crate) fn put(&mut self, lane: u8, task: TaskRecord) -> Result<(), ListFault>
        requires { lane < 4 }
        ensures { Joined self.old.lanes lane task result self.new.lanes }
    {
        // As a slice: the borrow checker has no plan yet for one element of an array that is a field.
        let lanes: &mut [Table] = &mut self.lanes;
        lanes[lane as usize].push(task)
    }
}
