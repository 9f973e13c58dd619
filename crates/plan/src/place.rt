// Placing a list's tasks by first fit.
ghost use Rattle.plan.specs.Placing.{Placed};
ghost use Rattle.plan.specs.Steps.{FirstFitted};
ghost use Rattle.tasks.specs.Filling.{tasks_of};

use crate::fault::PlanFault;
use crate::numbering::numbers_in_order;
use crate::rows::Rows;
use fit::question::FitTest;
use tasks::list::TaskList;
use tasks::table::MOST_TASKS;

// Gives each task, in the order of tasks, the first lane whose test says yes over the tasks already there.
// The plan is written only if every task has a lane.
pub fn place<F: FitTest>(list: &TaskList, test: &F, plan: &mut [u8]) -> Result<(), PlanFault>
    ensures { Placed (F.FitTest.yes test.now) list.now.lanes (tasks_of list.now) plan.old result plan.new }
{
    let count = list.len();
    if plan.len() != count {
        return Err(PlanFault::PlanLength(plan.len()));
    }
    let lanes = first_fit(list, test)?;
    plan.copy_from_slice(&lanes[0..count]);
    Ok(())
}

// The lane of each task by first fit, or the first task in order that no lane takes.
// An array for the most tasks and no `Vec`: the core uses no heap.
fn first_fit<F: FitTest>(list: &TaskList, test: &F) -> Result<[u8; MOST_TASKS], PlanFault>
    ensures { FirstFitted (F.FitTest.yes test.now) list.now.lanes (tasks_of list.now) result }
{
    let records = list.records();
    let turns = numbers_in_order(list);
    let mut rows = Rows::empty();
    let mut plan = [0; MOST_TASKS];
    for &number in &turns[0..list.len()] {
        let task = records[number];
        let Some(lane) = rows.first_that_takes(list.lanes(), test, task) else {
            return Err(PlanFault::NoFit(number));
        };
        plan[number] = lane;
        rows.put(lane, task)?;
    }
    Ok(plan)
}
