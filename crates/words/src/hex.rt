// Bytes spelt as pairs of hexadecimal digits.
ghost use Rattle.std.specs.Prelude.{IfOk, ◌<◌, SomeIff, MatchOption, ℕ};
ghost use Rattle.std.specs.Char.{digit_value};
ghost use Rattle.words.specs.Spelling.{HexRead, HexedRead, Pair};

use crate::number::{after, digit};
use std::alloc::{AllocError, Global};

// The value of a hexadecimal digit.
fn hex_digit(byte: u8) -> Option<u8>
    ensures { SomeIff result (digit_value byte < 16) (digit_value byte) }
{
    digit(byte).filter(|value| *value < 16)
}

// The byte that two digits spell, if both are hexadecimal.
fn pair(high: u8, low: u8) -> Option<u8>
    ensures { MatchOption result ((byte : ℕ) → Pair high low byte → ⊥) (Pair high low) }
{
    Some(16 * hex_digit(high)? + hex_digit(low)?)
}

// The bytes that the text spells, if it spells any.
pub fn hex(heap: Global, text: &[u8]) -> Result<Option<Vec<u8>>, AllocError>
    ensures { IfOk result (HexRead text.now) }
{
    let (pairs, rest) = text.as_chunks::<2>();
    if !rest.is_empty() {
        return Ok(None);
    }
    let mut bytes = Vec::new(heap);
    for [high, low] in pairs {
        let Some(byte) = pair(*high, *low) else {
            return Ok(None);
        };
        bytes.push(byte)?;
    }
    Ok(Some(bytes))
}

// The bytes after the word, if that is the whole line.
pub fn hexed(heap: Global, line: &[u8], word: &[u8]) -> Result<Option<Vec<u8>>, AllocError>
    ensures { IfOk result (HexedRead line.now word.now) }
{
    let Some(digits) = after(line, word) else {
        return Ok(None);
    };
    hex(heap, digits)
}
