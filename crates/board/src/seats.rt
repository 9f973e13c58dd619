// Which task sits on which lane.
ghost use Rattle.std.specs.Prelude.{◌≡◌, ℕ, ◌<◌, ◌≤◌, length, take, slice_index_or};
ghost use Rattle.plan.specs.Placing.{LanesAreSafe, order};
ghost use Rattle.tasks.specs.Filling.{tasks_of};

use tasks::list::TaskList;

mod work;

// The list of tasks, the lane of each by its number, and the tasks' numbers in their order.
// No seats exist on which some run of a lane makes a task late.
// Arrays by the task's number and not a map or a list of structs: no heap, and the order is read as a slice.
#[derive(Clone, Copy)]
pub(crate) struct Seats {
    list: TaskList,
    lane_of: [u8; 32],
    turns: [usize; 32],
    ghost lanes_long: { length lane_of ≡ 32 },
    ghost turns_long: { length turns ≡ 32 },
    ghost in_order: { take (length (tasks_of list)) turns ≡ order (tasks_of list) },
    ghost on_lanes: { (number : ℕ) → number < length (tasks_of list) → slice_index_or lane_of number 0 < list.lanes },
    ghost safe: { LanesAreSafe list.lanes (tasks_of list) (take (length (tasks_of list)) lane_of) },
}
