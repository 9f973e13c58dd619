// Preparing a board from a sheet.
ghost use Rattle.std.specs.Prelude.{◌≡◌, length};
ghost use Rattle.board.specs.Preparing.{Prepared, Readied};
ghost use Rattle.board.specs.View.{view};
ghost use Rattle.tasks.specs.Filling.{tasks_of};

use crate::board::Board;
use crate::fault::BoardFault;
use fit::question::FitTest;
use plan::fault::PlanFault;
use plan::place::place;
use tasks::list::TaskList;
use tasks::table::MOST_TASKS;

// Reads the sheet, places its tasks into the plan's bytes, one for each, and sets the board up.
// The bytes and the board are written only where nothing refuses any more.
pub fn prepare<F: FitTest>(
    board: &mut Board,
    sheet: &[u8],
    plan: &mut [u8],
    start: u64,
    test: &F,
) -> Result<(), BoardFault>
    ensures { Prepared (F.FitTest.yes test.now) sheet.now plan.old start (view board.old) result plan.new (view board.new) }
{
    let mut list = TaskList::new();
    list.read(sheet)?;
    ready(board, &list, plan, start, test)
}

// Places the list's tasks into the plan's bytes, and sets the board up.
fn ready<F: FitTest>(
    board: &mut Board,
    list: &TaskList,
    plan: &mut [u8],
    start: u64,
    test: &F,
) -> Result<(), BoardFault>
    ensures { Readied (F.FitTest.yes test.now) list.now.lanes (tasks_of list.now) plan.old start (view board.old) result plan.new (view board.new) }
{
    let count = plan.len();
    if count > MOST_TASKS {
        return Err(BoardFault::Plan(PlanFault::PlanLength(count)));
    }
    // Bytes of its own in a fixed array: no heap.
    let mut lanes = [0; MOST_TASKS];
    ready_by(board, list, &mut lanes[0..count], plan, start, test)
}

// Places into other bytes first, as many as the plan has.
fn ready_by<F: FitTest>(
    board: &mut Board,
    list: &TaskList,
    lanes: &mut [u8],
    plan: &mut [u8],
    start: u64,
    test: &F,
) -> Result<(), BoardFault>
    requires { length lanes.old ≡ length plan.old }
    ensures { Readied (F.FitTest.yes test.now) list.now.lanes (tasks_of list.now) plan.old start (view board.old) result plan.new (view board.new) }
{
    place(list, test, lanes)?;
    board.set_up(list, lanes, start, test)?;
    plan.copy_from_slice(lanes);
    Ok(())
}
