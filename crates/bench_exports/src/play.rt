// A day on the board, call by call, which only the benchmark plays.
ghost use Rattle.std.specs.Prelude.{◌≡◌};
ghost use Rattle.bench_exports.specs.Playing.{Played, answer_code, answer_value, call_said, code_of_day, played};
ghost use Rattle.board.specs.View.{view};

use crate::either_over;
use board::board::Board;
use board::call::{Answer, Call};
use board::fault::BoardFault;
use board::prepare::prepare;
use tasks::list::TaskList;

// A call in numbers, and the places for its answer. `Playing` in specs/ says what they mean.
// Numbers and no enums: it is a record of C.
#[derive(Clone, Copy, Debug, PartialEq, Eq)]
#[repr(C)]
pub struct Line {
    pub call: u32,
    pub argument: u32,
    pub code: u32,
    pub value: u64,
}

// The call that the line says.
impl From<Line> for Call {
    ghost from_gives = { λ line r. r ≡ call_said line };

    fn from(line: Line) -> Call {
        let argument = line.argument as usize;
        match line.call {
            0 => Call::Post(argument),
            1 => Call::Begin,
            2 => Call::End((line.argument % 256) as u8),
            3 => Call::Serving(argument),
            4 => Call::Waiting(argument),
            _ => Call::Clock,
        }
    }
}

// 0 for an answer, 1 for none, and else the number of the refusal.
// No From<Answer>: an answer gives two numbers, this one and its value.
fn code_of(answer: Answer) -> u32
    ensures { result ≡ answer_code answer }
{
    match answer {
        Answer::Serving(None) => 1,
        Answer::Refused(fault) => fault.number(),
        _ => 0,
    }
}

// The answer as a number, or the place of the refusal.
fn value_of(answer: Answer) -> u64
    ensures { result ≡ answer_value answer }
{
    match answer {
        Answer::Posted(clock) => clock,
        Answer::Begun(byte) => u64::from(byte),
        Answer::Ended(byte) => u64::from(byte),
        Answer::Serving(Some(task)) => task as u64,
        Answer::Serving(None) => 0,
        Answer::Waiting(jobs) => jobs as u64,
        Answer::Clock(clock) => clock,
        Answer::Refused(fault) => fault.place(),
    }
}

// Makes the call of every line in turn.
fn play(board: &mut Board, lines: &mut [Line])
    ensures { lines.new ≡ played (view board.old) lines.old }
{
    for line in lines.iter_mut() {
        let answer = board.answer(Call::from(*line));
        line.code = code_of(answer);
        line.value = value_of(answer);
    }
}

// Prepares a board from a sheet by the linear test or else the exact one, at the starting clock, and plays the lines on it.
// A number and no Result: it is C's call.
#[unsafe(no_mangle)]
pub extern "C" fn bench_play(sheet: &[u8], plan: &mut [u8], start: u64, lines: &mut [Line]) -> u32
    ensures { Played sheet.now plan.old start lines.old result plan.new lines.new }
{
    match play_sheet(sheet, plan, start, lines) {
        Ok(()) => 0,
        Err(fault) => fault.number(),
    }
}

// The same, with the fault whole.
fn play_sheet(
    sheet: &[u8],
    plan: &mut [u8],
    start: u64,
    lines: &mut [Line],
) -> Result<(), BoardFault>
    ensures { Played sheet.now plan.old start lines.old (code_of_day result) plan.new lines.new }
{
    let mut list = TaskList::new();
    list.read(sheet)?;
    let mut board = Board::new();
    prepare(&mut board, sheet, plan, start, &either_over(&list))?;
    play(&mut board, lines);
    Ok(())
}
