// The lines that are calls of the board.
ghost use Rattle.script.specs.Calls.{CallRead};

use crate::headings::MOST_NUMBER;
use board::call::Call;
use words::number::{is_word, numbered};

// The call, if the line says one.
pub(crate) fn call(line: &[u8]) -> Option<Call>
    ensures { CallRead line.now result }
{
    if is_word(line, b"begin") {
        return Some(Call::Begin);
    }
    if is_word(line, b"clock") {
        return Some(Call::Clock);
    }
    numbered(line, b"post ", MOST_NUMBER)
        .map(|task| Call::Post(task as usize))
        .or_else(|| numbered(line, b"end ", 255).map(|finished| Call::End(finished as u8)))
        .or_else(|| {
            numbered(line, b"serving ", MOST_NUMBER).map(|lane| Call::Serving(lane as usize))
        })
        .or_else(|| {
            numbered(line, b"waiting ", MOST_NUMBER).map(|task| Call::Waiting(task as usize))
        })
}
