// What `lanes` prints for a sheet, as a function of its bytes.
ghost use Rattle.std.specs.Prelude.{length, IfOk, OnOk};
ghost use Rattle.lanes.specs.Listing.{Listing, ListingIsSettled};
ghost use Rattle.lanes.specs.Steps.{BlockAdded, LinesAdded, NameThere, ReadTextAdded};

use crate::text::{placed_task, refusal, summary};
use fit::either::Either;
use fit::exact::Exact;
use fit::linear::Linear;
use fit::question::FitTest;
use plan::place::place;
use std::alloc::Global;
use std::io;
use tasks::list::TaskList;
use tasks::read::name;

// The name of a task of a sheet that spells a list. No bytes for none, and no Option: a name that is there has bytes, and both are printed alike.
fn name_bytes<'a>(sheet: &'a [u8], task: usize) -> &'a [u8]
    ensures { NameThere sheet.now task result.now }
{
    match name(sheet, task) {
        Ok(Some(part)) => part.bytes,
        Ok(None) => &[],
        Err(_) => &[],
    }
}

// Adds a line for each task of a plan.
fn lines(text: &mut Vec<u8>, plan: &[u8], sheet: &[u8]) -> io::Result<()>
    ensures { OnOk result (LinesAdded sheet.now plan.now (length plan.now) text.old.items text.new.items) }
{
    for (task, lane) in plan.iter().enumerate() {
        placed_task(text, task, *lane, name_bytes(sheet, task))?;
    }
    Ok(())
}

// Adds a block: the heading, and a line for each task as the test places it, or for the task that finds no lane. A struct of the
// list and its sheet, which two functions take, would say no more.
fn block<F: FitTest>(
    text: &mut Vec<u8>,
    heading: &[u8],
    test: &F,
    list: &TaskList,
    sheet: &[u8],
) -> io::Result<()>
    ensures { OnOk result (BlockAdded (F.FitTest.yes test.now) sheet.now list.now heading.now text.old.items text.new.items) }
{
    text.extend_from_slice(heading)?;
    let mut plan = vec![in *text.allocator(); 0; list.len()]?;
    if let Err(fault) = place(list, test, plan.as_mut_slice()) {
        return refusal(text, fault.number(), fault.place());
    }
    lines(text, plan.as_slice(), sheet)
}

// Adds what is printed for a list that was read.
fn read_text(text: &mut Vec<u8>, list: &TaskList, sheet: &[u8]) -> io::Result<()>
    ensures { OnOk result (ReadTextAdded sheet.now list.now text.old.items text.new.items) }
{
    summary(text, list.len(), list.lanes(), list.grid())?;
    let linear = Linear::over(list);
    block(text, b"linear\n", &linear, list, sheet)?;
    let either = Either {
        first: linear,
        second: Exact,
    };
    block(text, b"either\n", &either, list, sheet)
}

// What is printed for these bytes.
pub(crate) fn listing(heap: Global, sheet: &[u8]) -> io::Result<Vec<u8>>
    ensures { IfOk result (λ text. Listing sheet.now text.items) }
{
    let mut text = Vec::new(heap);
    let mut list = TaskList::new();
    if let Err(fault) = list.read(sheet) {
        refusal(&mut text, fault.number(), fault.place())?;
        return Ok(text);
    }
    read_text(&mut text, &list, sheet)?;
    Ok(text)
}

// The contract above fits one text only.
pub(crate) fn listing_is_settled()
    ensures { ListingIsSettled }
{}
