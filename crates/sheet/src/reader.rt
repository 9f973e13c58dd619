// A reader over a sheet's bytes: it opens the sheet and reads its records one after the other.
ghost use Rattle.std.specs.Prelude.{◌≡◌, ◌≤◌, [], length, Decides};

use crate::fault::SheetFault;
use crate::part::SheetRecord;
use crate::steps::{first_unprintable, number_at, record_at};

const VERSION: u8 = 1;

// The fewest and the most bytes that a record's length byte may count.
const FEWEST: usize = 12;

const MOST: usize = 32;

// The sheet's bytes and how far they were read: `at` is the offset of the next record.
#[derive(Clone, Copy)]
pub struct Reader<'a> {
    bytes: &'a [u8],
    at: usize,
    grid: u32,
    lanes: u8,
    ghost within: { at ≤ length bytes.now },
}

impl<'a> Reader<'a> {
    ghost use Rattle.sheet.specs.Reading.{Opened, Next, unread};

    // A reader at the sheet's first record, or why the bytes are no sheet.
    pub fn open(bytes: &'a [u8]) -> Result<Reader<'a>, SheetFault>
        ensures { Opened bytes.now result }
    {
        let present = bytes.len();
        if present < 3 {
            return Err(SheetFault::Short(present));
        }
        let end = 3 + usize::from(u16::from_be_bytes([bytes[1], bytes[2]]));
        if present < end {
            return Err(SheetFault::Short(present));
        }
        if bytes[0] != VERSION {
            return Err(SheetFault::Version);
        }
        if end < present {
            return Err(SheetFault::Trailing(end));
        }
        if end < 8 {
            return Err(SheetFault::ShortBody);
        }
        let grid = number_at(bytes, 3);
        Ok(Reader {
            bytes,
            at: 8,
            grid,
            lanes: bytes[7],
        })
    }

    // The grid that the sheet names, lawful or not.
    pub fn grid(&self) -> u32
        ensures { result ≡ self.now.grid }
    {
        self.grid
    }

    // The lane count that the sheet names, lawful or not.
    pub fn lanes(&self) -> u8
        ensures { result ≡ self.now.lanes }
    {
        self.lanes
    }

    // Whether every record was read.
    pub fn at_end(&self) -> bool
        ensures { Decides result (unread self.now ≡ []) }
    {
        self.at >= self.bytes.len()
    }

    // The next record, or none where every record was read.
    pub fn next(&mut self) -> Result<Option<SheetRecord<'a>>, SheetFault>
        ensures { Next self.old result self.new }
    {
        let bytes = self.bytes;
        let at = self.at;
        if at >= bytes.len() {
            return Ok(None);
        }
        let count = usize::from(bytes[at]);
        if count < FEWEST || count > MOST || bytes.len() - at <= count {
            return Err(SheetFault::RecordLength(at));
        }
        let name = at + 1 + FEWEST;
        let end = at + 1 + count;
        if let Some(i) = first_unprintable(&bytes[name..end]) {
            return Err(SheetFault::NameByte(name + i));
        }
        self.at = end;
        Ok(Some(record_at(bytes, at, end)))
    }
}
