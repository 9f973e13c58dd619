// The lines that `lanes` prints.
ghost use Rattle.std.specs.Prelude.{◌≡◌, ◌++◌, OnOk};
ghost use Rattle.lanes.specs.Listing.{refusal_line, spaced, summary_line, task_line};

use std::io;
use std::io::Write;

// Adds the line for a list that was read.
pub(crate) fn summary(text: &mut Vec<u8>, tasks: usize, lanes: u8, grid: u32) -> io::Result<()>
    ensures { OnOk result (text.new.items ≡ text.old.items ++ summary_line tasks lanes grid) }
{
    writeln!(text, "tasks {tasks} lanes {lanes} grid {grid}")
}

// Adds the line for a refusal.
pub(crate) fn refusal(text: &mut Vec<u8>, number: u32, place: usize) -> io::Result<()>
    ensures { OnOk result (text.new.items ≡ text.old.items ++ refusal_line number place) }
{
    writeln!(text, "refused {number} {place}")
}

// Adds a space and the name, if there is a name.
fn spaced_name(text: &mut Vec<u8>, name: &[u8]) -> io::Result<()>
    ensures { OnOk result (text.new.items ≡ text.old.items ++ spaced name.now) }
{
    if name.is_empty() {
        return Ok(());
    }
    text.extend_from_slice(b" ")?;
    text.extend_from_slice(name)?;
    Ok(())
}

// Adds the line for a task that was placed.
pub(crate) fn placed_task(text: &mut Vec<u8>, task: usize, lane: u8, name: &[u8]) -> io::Result<()>
    ensures { OnOk result (text.new.items ≡ text.old.items ++ task_line task lane name.now) }
{
    write!(text, "{task} {lane}")?;
    spaced_name(text, name)?;
    writeln!(text)
}
