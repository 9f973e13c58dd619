// Performing a list of calls on a new board.
ghost use Rattle.std.specs.Prelude.{◌≡◌};
ghost use Rattle.board.specs.Entries.{calls_of, with_answers};
ghost use Rattle.board.specs.PlainBoard.{after_calls, answers_to};
ghost use Rattle.board.specs.Promise.{Performed};
ghost use Rattle.board.specs.View.{view};
ghost use Rattle.tasks.specs.Filling.{tasks_of};

use crate::board::Board;
use crate::call::Entry;
use crate::fault::BoardFault;
use fit::question::FitTest;
use tasks::list::TaskList;

// Sets the board up, makes every call in turn, and writes each answer into its entry.
pub fn perform<F: FitTest>(
    board: &mut Board,
    list: &TaskList,
    plan: &[u8],
    start: u64,
    test: &F,
    entries: &mut [Entry],
) -> Result<(), BoardFault>
    ensures { Performed (F.FitTest.yes test.now) list.now.lanes (tasks_of list.now) plan.now start (view board.old) entries.old result (view board.new) entries.new }
{
    board.set_up(list, plan, start, test)?;
    answer_all(board, entries);
    Ok(())
}

// Makes every call in turn.
fn answer_all(board: &mut Board, entries: &mut [Entry])
    ensures filled { entries.new ≡ with_answers entries.old (answers_to (view board.old) (calls_of entries.old)) }
    ensures after { view board.new ≡ after_calls (view board.old) (calls_of entries.old) }
{
    for entry in entries.iter_mut() {
        entry.answer = Some(board.answer(entry.call));
    }
}
