// Reading a list, or a task's name, from a sheet.
ghost use Rattle.std.specs.Prelude.{◌≢◌, []};
ghost use Rattle.sheet.specs.Reading.{unread};
ghost use Rattle.tasks.specs.Reading.{ListRead, NameRead};
ghost use Rattle.tasks.specs.Settled.{ReadingSettled};
ghost use Rattle.tasks.specs.Steps.{Scanned, Taken};

use crate::fault::ListFault;
use crate::list::TaskList;
use crate::table::MOST_TASKS;
use sheet::fault::SheetFault;
use sheet::part::Part;
use sheet::reader::Reader;

// Adds the next record of the sheet to the list, and hands out its name.
fn take_record<'a>(
    sheet: &mut Reader<'a>,
    list: &mut TaskList,
) -> Result<Option<Part<'a>>, ListFault>
    requires { unread sheet.old ≢ [] }
    ensures { Taken sheet.old list.old result sheet.new list.new }
{
    if list.len() >= MOST_TASKS {
        return Err(ListFault::TooMany);
    }
    let Some(found) = sheet.next()? else {
        return Ok(None);
    };
    list.add(found.into())?;
    Ok(found.name)
}

// Fills the list from the sheet, and hands out the name of the task that was asked for, if one was.
// The list is lent and no part of the Result: a refusal and a short sheet would take a third longer for its copies.
fn scan<'a>(
    bytes: &'a [u8],
    asked: Option<usize>,
    list: &mut TaskList,
) -> Result<Option<Part<'a>>, ListFault>
    ensures { Scanned bytes.now asked result list.new }
{
    let mut sheet = Reader::open(bytes)?;
    list.start(sheet.grid(), sheet.lanes())?;
    let mut name = None;
    while !sheet.at_end() {
        let number = list.len();
        let found = take_record(&mut sheet, list)?;
        if asked == Some(number) {
            name = found;
        }
    }
    Ok(name)
}

impl TaskList {
    // Makes this the list that the sheet spells. A refused read leaves it as it was.
    pub fn read(&mut self, bytes: &[u8]) -> Result<(), ListFault>
        ensures { ListRead bytes.now self.old result self.new }
    {
        let mut fresh = TaskList::new();
        scan(bytes, None, &mut fresh)?;
        *self = fresh;
        Ok(())
    }
}

// The name of a task in the sheet, if it has one, as that part of the sheet's bytes.
pub fn name<'a>(bytes: &'a [u8], task: usize) -> Result<Option<Part<'a>>, ListFault>
    ensures { NameRead bytes.now task result }
{
    let mut list = TaskList::new();
    let name = scan(bytes, Some(task), &mut list)?;
    if task >= list.len() {
        return Err(ListFault::Sheet(SheetFault::NoTask(task)));
    }
    Ok(name)
}

// Reading has one answer: bytes spell at most one list, have at most one fault, and never both.
pub fn reading_is_settled()
    ensures { ReadingSettled }
{}
