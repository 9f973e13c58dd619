// The faults of the board layer, which carry those of the layers below whole.
ghost use Rattle.std.specs.Prelude.{◌≡◌};
ghost use Rattle.board.specs.Codes.{layer, number, place};
ghost use Rattle.board.specs.declared.fault.BoardFault.TheVariants.{Plan};
ghost use Rattle.plan.specs.declared.fault.PlanFault.TheVariants.{List};

use plan::fault::PlanFault;
use sheet::fault::Layer;
use tasks::fault::ListFault;

// Why a board refuses a call. `Codes` in specs/ gives each case its number and its place.
#[derive(Clone, Copy, Debug, PartialEq, Eq)]
pub enum BoardFault {
    // A fault of the plan layer or of one below it.
    Plan(PlanFault),
    // The box has no such lane: the lane asked.
    NoLane(usize),
    // The list has no such task: the number asked.
    NoTask(usize),
    // The gap since the task's last release has not passed: the clock at which it will have.
    Early(u64),
    // As many jobs of the task wait as may: the task.
    QueueFull(usize),
    // A slot is open: the clock.
    SlotOpen(u64),
    // No slot is open: the clock.
    SlotShut(u64),
    // A job that no lane serves is said to be finished: the lowest such bit.
    NotServed(usize),
    // The clock is at its end, or would start past it: that clock.
    ClockEnd(u64),
}

impl BoardFault {
    // The layer that gives the fault. As in the other layers, each of which names its own cases: a trait would say as much at each of them.
    pub fn layer(self) -> Layer
        ensures { result ≡ layer self }
    {
        match self {
            BoardFault::Plan(fault) => fault.layer(),
            _ => Layer::Board,
        }
    }

    // The number that support sees.
    pub fn number(self) -> u32
        ensures { result ≡ number self }
    {
        match self {
            BoardFault::Plan(fault) => fault.number(),
            BoardFault::NoLane(_) => 11,
            BoardFault::NoTask(_) => 13,
            BoardFault::Early(_) => 14,
            BoardFault::QueueFull(_) => 15,
            BoardFault::SlotOpen(_) => 16,
            BoardFault::SlotShut(_) => 17,
            BoardFault::NotServed(_) => 18,
            BoardFault::ClockEnd(_) => 19,
        }
    }

    // Where the fault lies.
    pub fn place(self) -> u64
        ensures { result ≡ place self }
    {
        match self {
            BoardFault::Plan(fault) => fault.place() as u64,
            BoardFault::NoLane(lane) => lane as u64,
            BoardFault::NoTask(task) => task as u64,
            BoardFault::Early(clock) => clock,
            BoardFault::QueueFull(task) => task as u64,
            BoardFault::SlotOpen(clock) => clock,
            BoardFault::SlotShut(clock) => clock,
            BoardFault::NotServed(bit) => bit as u64,
            BoardFault::ClockEnd(clock) => clock,
        }
    }
}

impl From<PlanFault> for BoardFault {
    ghost from_gives = { λ fault r. r ≡ Plan fault };

    fn from(fault: PlanFault) -> BoardFault {
        BoardFault::Plan(fault)
    }
}

impl From<ListFault> for BoardFault {
    ghost from_gives = { λ fault r. r ≡ Plan (List fault) };

    fn from(fault: ListFault) -> BoardFault {
        BoardFault::Plan(PlanFault::List(fault))
    }
}
