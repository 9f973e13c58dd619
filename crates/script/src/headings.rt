// The four lines that a recorded day begins with.
ghost use Rattle.std.specs.Prelude.{◌≡◌, IfOk};
ghost use Rattle.script.specs.Headings.{fit_word, FitOfRead, FitRead, PlanRead, SheetRead, StartRead};

use std::alloc::{AllocError, Global};
use words::hex::hexed;
use words::number::{is_word, numbered};

// The greatest task, lane and cost that a line can name.
pub const MOST_NUMBER: u64 = 4_294_967_295;

// Which fit test judges the plan.
#[derive(Clone, Copy, PartialEq, Eq, Debug)]
pub enum TestName {
    Linear,
    Exact,
    // Linear or exact.
    Either,
}

impl TestName {
    // What a line with this name begins with.
    fn word(self) -> &'static [u8]
        ensures { result.now ≡ fit_word self }
    {
        match self {
            TestName::Linear => b"fit linear ",
            TestName::Exact => b"fit exact ",
            TestName::Either => b"fit either ",
        }
    }
}

// A surcharge of this cost over that test.
#[derive(Clone, Copy, PartialEq, Eq, Debug)]
pub struct FitChoice {
    pub test: TestName,
    pub cost: u32,
}

// Where the plan comes from. No Option, since a line may say no plan at all: two of them, one in the other, would read worse.
#[derive(PartialEq, Eq, Debug, Drop)]
pub enum PlanChoice {
    // Placed under the day's fit test.
    Auto,
    // Proposed as these bytes.
    Proposed(Vec<u8>),
}

// The bytes of the sheet, if the line says any.
pub(crate) fn sheet(heap: Global, line: &[u8]) -> Result<Option<Vec<u8>>, AllocError>
    ensures { IfOk result (SheetRead line.now) }
{
    hexed(heap, line, b"sheet ")
}

// Where the plan comes from, if the line says it.
pub(crate) fn plan(heap: Global, line: &[u8]) -> Result<Option<PlanChoice>, AllocError>
    ensures { IfOk result (PlanRead line.now) }
{
    if is_word(line, b"plan auto") {
        return Ok(Some(PlanChoice::Auto));
    }
    let proposed = hexed(heap, line, b"plan ")?;
    Ok(proposed.map(|bytes| PlanChoice::Proposed(bytes)))
}

// The fit test of this name and its cost, if the line says them.
fn fit_of(line: &[u8], test: TestName) -> Option<FitChoice>
    ensures { FitOfRead line.now test result }
{
    let cost = numbered(line, test.word(), MOST_NUMBER)? as u32;
    Some(FitChoice { test, cost })
}

// The fit test and its cost, if the line says them.
pub(crate) fn fit(line: &[u8]) -> Option<FitChoice>
    ensures { FitRead line.now result }
{
    fit_of(line, TestName::Linear)
        .or_else(|| fit_of(line, TestName::Exact))
        .or_else(|| fit_of(line, TestName::Either))
}

// The starting clock, if the line says one.
pub(crate) fn start(line: &[u8]) -> Option<u64>
    ensures { StartRead line.now result }
{
    numbered(line, b"start ", u64::MAX)
}
