// A recorded day, played on a new board.
ghost use Rattle.script.specs.Day.{Costed, DayRun, DayText, Named, Played, Replay, ReplayIsSettled};
ghost use Rattle.script.specs.Headings.{proposed};
ghost use Rattle.std.specs.Prelude.{◌≡◌, [], IfOk, OnOk};
ghost use Rattle.tasks.specs.Filling.{tasks_of};
ghost use Rattle.words.specs.Lines.{lines_left};

use crate::headings::{PlanChoice, TestName};
use crate::opening::{Headings, OpeningError, read_opening};
use crate::session::{Session, add_answers, read_calls};
use crate::texts::{not_set_up, not_understood, set_up};
use board::board::Board;
use board::call::Entry;
use board::fault::BoardFault;
use board::perform::perform;
use fit::either::Either;
use fit::exact::Exact;
use fit::linear::Linear;
use fit::question::FitTest;
use fit::surcharge::Surcharge;
use plan::place::place;
use std::alloc::{AllocError, Global};
use tasks::list::TaskList;
use tasks::table::MOST_TASKS;
use words::lines::Lines;

// Makes the calls on a new board, under a fit test. The list, the headings and the entries go down through three functions, each of which
// adds or takes a part of the test: a struct of them would be taken apart here.
fn play<F: FitTest>(
    list: &TaskList,
    headings: &Headings,
    test: &F,
    entries: &mut [Entry],
) -> Result<(), BoardFault>
    ensures { Played (F.FitTest.yes test.now) list.now.lanes (tasks_of list.now) (proposed headings.now.plan) headings.now.start entries.old result entries.new }
{
    let mut board = Board::new();
    let start = headings.start;
    match &headings.plan {
        PlanChoice::Auto => {
            // An array for the most tasks: a Vec would bring in a fault of memory, which no board has.
            let mut lanes = [0; MOST_TASKS];
            let room = &mut lanes[0..list.len()];
            place(list, test, room)?;
            perform(&mut board, list, room, start, test, entries)
        }
        PlanChoice::Proposed(bytes) => {
            perform(&mut board, list, bytes.as_slice(), start, test, entries)
        }
    }
}

// The same under a surcharge of the headings' cost over a test.
fn play_at_cost<T: FitTest + Drop>(
    list: &TaskList,
    headings: &Headings,
    below: T,
    entries: &mut [Entry],
) -> Result<(), BoardFault>
    ensures { Costed (T.FitTest.yes below) headings.now.fit.cost list.now.lanes (tasks_of list.now) (proposed headings.now.plan) headings.now.start entries.old result entries.new }
{
    let test = Surcharge::new(below, headings.fit.cost)?;
    play(list, headings, &test, entries)
}

// The same under the test that the headings name. No `dyn FitTest`: the surcharge holds the test that is below it.
fn play_named(list: &TaskList, headings: &Headings, entries: &mut [Entry]) -> Result<(), BoardFault>
    ensures { Named headings.now.fit.test headings.now.fit.cost list.now.grid list.now.lanes (tasks_of list.now) (proposed headings.now.plan) headings.now.start entries.old result entries.new }
{
    match headings.fit.test {
        TestName::Linear => play_at_cost(list, headings, Linear::over(list), entries),
        TestName::Exact => play_at_cost(list, headings, Exact, entries),
        TestName::Either => {
            let either = Either {
                first: Linear::over(list),
                second: Exact,
            };
            play_at_cost(list, headings, either, entries)
        }
    }
}

// Makes the calls on the board that the headings ask for.
pub(crate) fn run(headings: &Headings, entries: &mut [Entry]) -> Result<(), BoardFault>
    ensures { DayRun headings.now.sheet.items (proposed headings.now.plan) headings.now.fit.test headings.now.fit.cost headings.now.start entries.old result entries.new }
{
    let mut list = TaskList::new();
    list.read(headings.sheet.as_slice())?;
    play_named(&list, headings, entries)
}

// Adds what is printed after the headings.
fn add_day(text: &mut Vec<u8>, headings: &Headings, lines: Lines) -> Result<(), AllocError>
    ensures { OnOk result (DayText headings.now (lines_left lines.entry) text.old.items text.new.items) }
{
    let Session { mut entries, stop } = read_calls(*text.allocator(), lines)?;
    if let Err(fault) = run(headings, entries.as_mut_slice()) {
        return not_set_up(text, fault);
    }
    set_up(text)?;
    add_answers(text, lines, entries.as_slice())?;
    match stop {
        Some(line) => not_understood(text, line),
        None => Ok(()),
    }
}

// Adds what is printed for this input.
fn add_replay(text: &mut Vec<u8>, input: &[u8]) -> Result<(), AllocError>
    ensures { OnOk result (text.old.items ≡ [] → Replay input.now text.new.items) }
{
    let mut lines = Lines::of(input);
    match read_opening(*text.allocator(), &mut lines) {
        Ok(headings) => add_day(text, &headings, lines),
        Err(OpeningError::NotUnderstood(line)) => not_understood(text, line),
        Err(OpeningError::OutOfMemory(error)) => Err(error),
    }
}

// What is printed for this input.
pub fn replay(heap: Global, input: &[u8]) -> Result<Vec<u8>, AllocError>
    ensures { IfOk result (λ text. Replay input.now text.items) }
{
    let mut text = Vec::new(heap);
    add_replay(&mut text, input)?;
    Ok(text)
}

// An input has one text.
pub fn replay_is_settled()
    ensures { ReplayIsSettled }
{}
