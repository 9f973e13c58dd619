// The faults of the sheet layer.
ghost use Rattle.std.specs.Prelude.{◌≡◌};
ghost use Rattle.sheet.specs.Codes.{layer, number, place};

// The layers of the box, the lowest first. A fault belongs to one of them.
#[derive(Clone, Copy, Debug, PartialEq, Eq)]
pub enum Layer {
    Sheet,
    List,
    Plan,
    Board,
}

// Why bytes are no sheet. `Codes` in specs/ gives each case its number and its place.
#[derive(Clone, Copy, Debug, PartialEq, Eq)]
pub enum SheetFault {
    // Fewer bytes than a sheet has, or than its length says: the bytes present.
    Short(usize),
    // The first byte is not the version.
    Version,
    // Bytes follow the sheet's length: the offset of the first of them.
    Trailing(usize),
    // The body has no room for the grid and the lane count.
    ShortBody,
    // A record's length is out of range or runs past the end: the offset of its length byte.
    RecordLength(usize),
    // A name holds a byte that is not printable: the offset of the first such byte.
    NameByte(usize),
    // A name was asked of a task that the sheet does not have: the number asked.
    NoTask(usize),
}

impl SheetFault {
    // The layer that gives the fault.
    pub fn layer(self) -> Layer
        ensures { result ≡ layer self }
    {
        Layer::Sheet
    }

    // The number that support sees.
    pub fn number(self) -> u32
        ensures { result ≡ number self }
    {
        match self {
            SheetFault::Short(_) => 1,
            SheetFault::Version => 2,
            SheetFault::Trailing(_) => 3,
            SheetFault::ShortBody => 4,
            SheetFault::RecordLength(_) => 4,
            SheetFault::NameByte(_) => 5,
            SheetFault::NoTask(_) => 13,
        }
    }

    // Where the fault lies.
    pub fn place(self) -> usize
        ensures { result ≡ place self }
    {
        match self {
            SheetFault::Short(present) => present,
            SheetFault::Version => 0,
            SheetFault::Trailing(first) => first,
            SheetFault::ShortBody => 3,
            SheetFault::RecordLength(at) => at,
            SheetFault::NameByte(at) => at,
            SheetFault::NoTask(task) => task,
        }
    }
}
