// The lines that answer a recorded day. They are written into the text itself: to format each apart takes an allocation more for every
// line of a day.
ghost use Rattle.std.specs.Prelude.{◌≡◌, ◌++◌, OnOk, is_ok};
ghost use Rattle.board.specs.Codes.{number, place};
ghost use Rattle.script.specs.Texts.{answer_line, answer_text, not_understood_line, refused_line, set_up_line};

use board::call::Answer;
use board::fault::BoardFault;
use std::alloc::AllocError;
use std::io;
use std::io::Write;

// A writer's error says more than that no memory was found; one into a `Vec` fails for nothing else.
fn in_memory(written: io::Result<()>) -> Result<(), AllocError>
    ensures { is_ok result ≡ is_ok written }
{
    written.map_err(|_| AllocError)
}

// Adds what is printed of an answer. The frequent `none` is copied, not formatted.
fn answer(text: &mut Vec<u8>, given: Answer) -> Result<(), AllocError>
    ensures { OnOk result (text.new.items ≡ text.old.items ++ answer_text given) }
{
    match given {
        Answer::Posted(clock) | Answer::Clock(clock) => in_memory(write!(text, "{clock}")),
        Answer::Begun(byte) | Answer::Ended(byte) => in_memory(write!(text, "{byte}")),
        Answer::Serving(Some(count)) | Answer::Waiting(count) => in_memory(write!(text, "{count}")),
        Answer::Serving(None) => text.extend_from_slice(b"none"),
        Answer::Refused(fault) => {
            let number = fault.number();
            let place = fault.place();
            in_memory(write!(text, "refused {number} {place}"))
        }
    }
}

// Adds the line of a call and its answer.
pub(crate) fn answered(text: &mut Vec<u8>, line: &[u8], given: Answer) -> Result<(), AllocError>
    ensures { OnOk result (text.new.items ≡ text.old.items ++ answer_line line.now given) }
{
    text.extend_from_slice(line)?;
    text.extend_from_slice(b" = ")?;
    answer(text, given)?;
    text.extend_from_slice(b"\n")
}

// Adds the line for a board that was set up.
pub(crate) fn set_up(text: &mut Vec<u8>) -> Result<(), AllocError>
    ensures { OnOk result (text.new.items ≡ text.old.items ++ set_up_line) }
{
    text.extend_from_slice(b"set up = ok\n")
}

// Adds the line for a board that was not set up.
pub(crate) fn not_set_up(text: &mut Vec<u8>, fault: BoardFault) -> Result<(), AllocError>
    ensures { OnOk result (text.new.items ≡ text.old.items ++ refused_line (number fault) (place fault)) }
{
    let number = fault.number();
    let place = fault.place();
    in_memory(writeln!(text, "set up = refused {number} {place}"))
}

// Adds the line that names a line of the input.
pub(crate) fn not_understood(text: &mut Vec<u8>, line: usize) -> Result<(), AllocError>
    ensures { OnOk result (text.new.items ≡ text.old.items ++ not_understood_line line) }
{
    in_memory(writeln!(text, "line {line} is not understood"))
}
