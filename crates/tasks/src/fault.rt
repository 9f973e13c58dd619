// The faults of the list layer, which carry those of the sheet layer whole.
ghost use Rattle.std.specs.Prelude.{◌≡◌};
ghost use Rattle.tasks.specs.Codes.{layer, number, place};
ghost use Rattle.tasks.specs.declared.fault.ListFault.TheVariants.{Sheet};

use sheet::fault::{Layer, SheetFault};

// The settings that have a range: a list's grid and lane count, and a surcharge's switch cost.
#[derive(Clone, Copy, Debug, PartialEq, Eq)]
pub enum Setting {
    Grid,
    Lanes,
    SwitchCost,
}

// Why there is no such list. `Codes` in specs/ gives each case its number and its place.
#[derive(Clone, Copy, Debug, PartialEq, Eq)]
pub enum ListFault {
    // A fault of the sheet layer.
    Sheet(SheetFault),
    // The list has all its tasks.
    TooMany,
    // A setting is out of its range.
    OutOfRange(Setting),
    // A bound on work, limit or gap is broken: the task's number.
    Bound(usize),
    // The gap does not divide the grid: the task's number.
    OffGrid(usize),
}

impl ListFault {
    // The layer that gives the fault. As in the other layers, each of which names its own cases: a trait would say as much at each of them.
    pub fn layer(self) -> Layer
        ensures { result ≡ layer self }
    {
        match self {
            ListFault::Sheet(fault) => fault.layer(),
            _ => Layer::List,
        }
    }

    // The number that support sees.
    pub fn number(self) -> u32
        ensures { result ≡ number self }
    {
        match self {
            ListFault::Sheet(fault) => fault.number(),
            ListFault::TooMany => 6,
            ListFault::OutOfRange(_) => 7,
            ListFault::Bound(_) => 8,
            ListFault::OffGrid(_) => 9,
        }
    }

    // Where the fault lies.
    pub fn place(self) -> usize
        ensures { result ≡ place self }
    {
        match self {
            ListFault::Sheet(fault) => fault.place(),
            ListFault::TooMany => 32,
            ListFault::OutOfRange(Setting::Grid) => 0,
            ListFault::OutOfRange(Setting::Lanes) => 1,
            ListFault::OutOfRange(Setting::SwitchCost) => 2,
            ListFault::Bound(task) => task,
            ListFault::OffGrid(task) => task,
        }
    }
}

impl From<SheetFault> for ListFault {
    ghost from_gives = { λ fault r. r ≡ Sheet fault };

    fn from(fault: SheetFault) -> ListFault {
        ListFault::Sheet(fault)
    }
}
