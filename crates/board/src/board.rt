// The board: which task sits on which lane, the jobs that wait, one clock, and whether a slot is open.
ghost use Rattle.std.specs.Prelude.{◌≡◌, ◌<◌, ◌≤◌, true};
ghost use Rattle.board.specs.PlainBoard.{clock_end};
ghost use Rattle.board.specs.Steps.{KnowsNext};

use crate::jobs::Jobs;
use crate::seats::Seats;

mod look;
mod work;

// No board exists whose lanes hold a task that some run makes late: see its seats.
#[derive(Clone, Copy)]
pub struct Board {
    seats: Seats,
    jobs: Jobs,
    clock: u64,
    slot_open: bool,
    ghost at_hand: { KnowsNext seats jobs },
    ghost in_time: { clock ≤ clock_end },
    ghost open_in_time: { slot_open ≡ true → clock < clock_end },
}
