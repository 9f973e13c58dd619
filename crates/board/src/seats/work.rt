// Filling the seats, and looking at them.
ghost use Rattle.std.specs.Prelude.{◌≡◌, ℕ, ◌<◌, ◌≤◌, [], length, take};
ghost use Rattle.board.specs.Seating.{plan_of, tasks_on};
ghost use Rattle.plan.specs.Placing.{LanesAreSafe, lane_of, order, record_of};
ghost use Rattle.tasks.specs.Filling.{tasks_of};

use crate::seats::Seats;
use plan::numbering::numbers_in_order;
use tasks::list::TaskList;
use tasks::record::TaskRecord;
use tasks::table::MOST_TASKS;

// The plan's bytes, and zeros behind them.
fn padded(plan: &[u8]) -> [u8; 32]
    requires { length plan.now ≤ 32 }
    ensures { take (length plan.now) result ≡ plan.now }
{
    let mut lanes = [0; MOST_TASKS];
    lanes[..plan.len()].copy_from_slice(plan);
    lanes
}

impl Seats {
    // The seats of the list that every box begins with: one lane and no task.
    pub(crate) fn none() -> Seats
        ensures tasks { tasks_on result ≡ [] }
        ensures lanes { result.list.lanes ≡ 1 }
    {
        Seats {
            list: TaskList::new(),
            lane_of: [0; MOST_TASKS],
            turns: [0; MOST_TASKS],
        }
    }

    // The list's tasks, each on its lane of a plan that is safe.
    pub(crate) fn new(list: &TaskList, plan: &[u8]) -> Seats
        requires long { length plan.now ≡ length (tasks_of list.now) }
        requires on_lanes { (number : ℕ) → number < length (tasks_of list.now) → lane_of plan.now number < list.now.lanes }
        requires safe { LanesAreSafe list.now.lanes (tasks_of list.now) plan.now }
        ensures list { result.list ≡ list.now }
        ensures plan { plan_of result ≡ plan.now }
    {
        Seats {
            list: *list,
            lane_of: padded(plan),
            turns: numbers_in_order(list),
        }
    }

    // How many tasks there are.
    pub(crate) fn count(&self) -> usize
        ensures { result ≡ length (tasks_on self.now) }
    {
        self.list.len()
    }

    // How many lanes there are.
    pub(crate) fn lanes(&self) -> usize
        ensures { result ≡ self.now.list.lanes }
    {
        usize::from(self.list.lanes())
    }

    // The task of this number. The bound ties the number to these seats, so no type of numbers can hold it.
    pub(crate) fn task(&self, number: usize) -> TaskRecord
        requires { number < length (tasks_on self.now) }
        ensures { result ≡ record_of (tasks_on self.now) number }
    {
        self.list.records()[number]
    }

    // The lane of the task of this number.
    pub(crate) fn lane(&self, number: usize) -> usize
        requires { number < length (tasks_on self.now) }
        ensures { result ≡ lane_of (plan_of self.now) number }
    {
        usize::from(self.lane_of[number])
    }

    // The tasks' numbers in their order.
    pub(crate) fn order(&self) -> &[usize]
        ensures { result.now ≡ order (tasks_on self.now) }
    {
        &self.turns[..self.list.len()]
    }
}
