// The calls of a recorded day, and the lines that answer them.
ghost use Rattle.std.specs.Prelude.{◌≡◌, ◌++◌, IfOk, OnOk};
ghost use Rattle.script.specs.Calls.{CallsRead};
ghost use Rattle.script.specs.Texts.{answer_lines, given_in};
ghost use Rattle.words.specs.Lines.{lines_left};

use crate::calls::call;
use crate::texts::answered;
use board::call::Entry;
use std::alloc::{AllocError, Global};
use words::lines::Lines;

// The calls of a day, up to the first line that is none, each with the place for its answer.
#[derive(PartialEq, Eq, Debug, Drop)]
pub struct Session {
    pub entries: Vec<Entry>,
    // The number of the line that is none, counted from 1, if there is one. The calls begin in line 5.
    pub stop: Option<usize>,
}

// Reads the calls.
pub(crate) fn read_calls(heap: Global, lines: Lines) -> Result<Session, AllocError>
    ensures { IfOk result (λ found. CallsRead (lines_left lines.entry) found) }
{
    let mut entries = Vec::new(heap);
    for line in lines {
        let Some(found) = call(line) else {
            let stop = Some(entries.len() + 5);
            return Ok(Session { entries, stop });
        };
        entries.push(Entry {
            call: found,
            answer: None,
        })?;
    }
    Ok(Session {
        entries,
        stop: None,
    })
}

// Adds each line with its answer, up to the first entry that has none.
pub(crate) fn add_answers(
    text: &mut Vec<u8>,
    lines: Lines,
    entries: &[Entry],
) -> Result<(), AllocError>
    ensures { OnOk result (text.new.items ≡ text.old.items ++ answer_lines (lines_left lines.entry) (given_in entries.now)) }
{
    for (entry, line) in entries.iter().zip(lines) {
        let Some(answer) = entry.answer else {
            break;
        };
        answered(text, line, answer)?;
    }
    Ok(())
}
