// Checking a plan, whoever made it.
ghost use Rattle.std.specs.Prelude.{◌≡◌, ℕ, ◌<◌, length, position, nat_le, MatchResult};
ghost use Rattle.plan.specs.Placing.{Checked, Fails, Fits, OnLanes};
ghost use Rattle.tasks.specs.Filling.{tasks_of};

use crate::fault::PlanFault;
use crate::numbering::numbers_in_order;
use crate::rows::Rows;
use fit::question::FitTest;
use tasks::list::TaskList;

// Passes a plan with a byte for each task, every task on a lane of the box, and each accepted over those before it
// on its lane; if it passes, no run on any of the plan's lanes has a late job.
pub fn check<F: FitTest>(list: &TaskList, plan: &[u8], test: &F) -> Result<(), PlanFault>
    ensures { Checked (F.FitTest.yes test.now) list.now.lanes (tasks_of list.now) plan.now result }
{
    if plan.len() != list.len() {
        return Err(PlanFault::PlanLength(plan.len()));
    }
    if let Some(task) = first_off_lanes(plan, list.lanes()) {
        return Err(PlanFault::NoLane(task));
    }
    each_fits(list, plan, test)
}

// The lowest number of a task whose lane the box does not have.
fn first_off_lanes(plan: &[u8], lanes: u8) -> Option<usize>
    ensures { result ≡ position (nat_le lanes) plan.now }
{
    plan.iter().position(|lane| *lane >= lanes)
}

// In their order, each task is accepted over those before it on its lane.
fn each_fits<F: FitTest>(list: &TaskList, plan: &[u8], test: &F) -> Result<(), PlanFault>
    requires long { length plan.now ≡ length (tasks_of list.now) }
    requires lanes { OnLanes (F.FitTest.yes test.now) list.now.lanes (tasks_of list.now) plan.now }
    ensures { MatchResult result (λ _. ((k : ℕ) → k < length (tasks_of list.now) → Fits (F.FitTest.yes test.now) list.now.lanes (tasks_of list.now) plan.now k)) (λ fault. Fails (F.FitTest.yes test.now) list.now.lanes (tasks_of list.now) plan.now fault) }
{
    let records = list.records();
    let turns = numbers_in_order(list);
    let mut rows = Rows::empty();
    for &number in &turns[0..list.len()] {
        let lane = plan[number];
        let task = records[number];
        if !rows.takes(lane, test, task) {
            return Err(PlanFault::NoFit(number));
        }
        rows.put(lane, task)?;
    }
    Ok(())
}
