// The steps of reading one record.
ghost use Rattle.std.specs.Prelude.{◌≡◌, ◌+◌, ◌≤◌, ◌++◌, length, drop, position};
ghost use Rattle.sheet.specs.Spelling.{four_bytes};
ghost use Rattle.sheet.specs.Steps.{RecordAt, unprintable};

use crate::part::{Part, SheetRecord};

// The number that the four bytes at `at` spell.
pub(crate) fn number_at(bytes: &[u8], at: usize) -> u32
    requires { at + 4 ≤ length bytes.now }
    ensures { drop at bytes.now ≡ four_bytes result ++ drop (at + 4) bytes.now }
{
    u32::from_be_bytes([bytes[at], bytes[at + 1], bytes[at + 2], bytes[at + 3]])
}

// The index of the first byte that no name may hold.
pub(crate) fn first_unprintable(name: &[u8]) -> Option<usize>
    ensures { result ≡ position unprintable name.now }
{
    name.iter().position(|byte| *byte < 0x21 || *byte > 0x7e)
}

// The record whose length byte stands at `at` and whose last byte stands before `end`.
pub(crate) fn record_at<'a>(bytes: &'a [u8], at: usize, end: usize) -> SheetRecord<'a>
    requires long { at + 13 ≤ end }
    requires within { end ≤ length bytes.now }
    ensures { RecordAt bytes.now at end result }
{
    let place = at + 13;
    let name = if place < end {
        Some(Part {
            bytes: &bytes[place..end],
            place,
        })
    } else {
        None
    };
    SheetRecord {
        work: number_at(bytes, at + 1),
        limit: number_at(bytes, at + 5),
        gap: number_at(bytes, at + 9),
        name,
    }
}
