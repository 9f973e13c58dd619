// The beginning of a recorded day: its four headings, in their order.
ghost use Rattle.std.specs.Prelude.{◌≡◌, [], drop};
ghost use Rattle.script.specs.Opening.{Opened, line_at};
ghost use Rattle.script.specs.declared.opening.OpeningError.TheVariants.{OutOfMemory};
ghost use Rattle.words.specs.Lines.{lines_left};

use crate::headings;
use crate::headings::{FitChoice, PlanChoice};
use std::alloc::{AllocError, Global};
use words::lines::Lines;

// What the headings say.
#[derive(PartialEq, Eq, Debug, Drop)]
pub struct Headings {
    pub sheet: Vec<u8>,
    pub plan: PlanChoice,
    pub fit: FitChoice,
    pub start: u64,
}

// Why the headings were not read.
#[derive(Clone, Copy, PartialEq, Eq, Debug)]
pub enum OpeningError {
    // The line with this number, counted from 1, is missing or is not the heading that stands there.
    NotUnderstood(usize),
    // No memory was found.
    OutOfMemory(AllocError),
}

impl From<AllocError> for OpeningError {
    ghost from_gives = { λ error r. r ≡ OutOfMemory error };

    fn from(error: AllocError) -> OpeningError {
        OpeningError::OutOfMemory(error)
    }
}

// The next line; past the last one, a blank line.
fn next_or_blank<'a>(lines: &mut Lines<'a>) -> &'a [u8]
    ensures line { result.now ≡ line_at (lines_left lines.old) 0 }
    ensures rest { lines_left lines.new ≡ drop 1 (lines_left lines.old) }
{
    lines.next().unwrap_or(&[])
}

// Reads the headings.
pub(crate) fn read_opening(heap: Global, lines: &mut Lines) -> Result<Headings, OpeningError>
    ensures { Opened (lines_left lines.old) result (lines_left lines.new) }
{
    let sheet = headings::sheet(heap, next_or_blank(lines))?;
    let sheet = sheet.ok_or(OpeningError::NotUnderstood(1))?;
    let plan = headings::plan(heap, next_or_blank(lines))?;
    let plan = plan.ok_or(OpeningError::NotUnderstood(2))?;
    let fit = headings::fit(next_or_blank(lines)).ok_or(OpeningError::NotUnderstood(3))?;
    let start = headings::start(next_or_blank(lines)).ok_or(OpeningError::NotUnderstood(4))?;
    Ok(Headings {
        sheet,
        plan,
        fit,
        start,
    })
}
