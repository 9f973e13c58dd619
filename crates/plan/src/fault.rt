// The faults of the plan layer, which carry those of the list layer whole.
ghost use Rattle.std.specs.Prelude.{◌≡◌};
ghost use Rattle.plan.specs.Codes.{layer, number, place};
ghost use Rattle.plan.specs.declared.fault.PlanFault.TheVariants.{List};

use sheet::fault::Layer;
use tasks::fault::ListFault;

// Why there is no such plan. `Codes` in specs/ gives each case its number and its place.
#[derive(Clone, Copy, Debug, PartialEq, Eq)]
pub enum PlanFault {
    // A fault of the list layer or of the one below it.
    List(ListFault),
    // The plan has not one byte for each task: its length.
    PlanLength(usize),
    // A lane that the box does not have: the lowest number of a task on such a lane.
    NoLane(usize),
    // The first task in order that no lane takes, or whose lane does not take it.
    NoFit(usize),
}

impl PlanFault {
    // The layer that gives the fault. As in the other layers, each of which names its own cases: a trait would say as much at each of them.
    pub fn layer(self) -> Layer
        ensures { result ≡ layer self }
    {
        match self {
            PlanFault::List(fault) => fault.layer(),
            _ => Layer::Plan,
        }
    }

    // The number that support sees.
    pub fn number(self) -> u32
        ensures { result ≡ number self }
    {
        match self {
            PlanFault::List(fault) => fault.number(),
            PlanFault::PlanLength(_) => 10,
            PlanFault::NoLane(_) => 11,
            PlanFault::NoFit(_) => 12,
        }
    }

    // Where the fault lies.
    pub fn place(self) -> usize
        ensures { result ≡ place self }
    {
        match self {
            PlanFault::List(fault) => fault.place(),
            PlanFault::PlanLength(length) => length,
            PlanFault::NoLane(task) => task,
            PlanFault::NoFit(task) => task,
        }
    }
}

impl From<ListFault> for PlanFault {
    ghost from_gives = { λ fault r. r ≡ List fault };

    fn from(below: ListFault) -> PlanFault {
        PlanFault::List(below)
    }
}
