// Looking at the board, and the steps of a slot.
ghost use Rattle.std.specs.Prelude.{◌≡◌, ◌+◌, ◌*◌, ◌<◌, map, length, IfSome, if◌then◌else◌};
ghost use Rattle.board.specs.PlainBoard.{bit, busy, busy_byte, count_from, first_fault, not_served};
ghost use Rattle.board.specs.Seating.{plan_of, tasks_on};
ghost use Rattle.board.specs.Serving.{LanesServed};
ghost use Rattle.board.specs.Steps.{next_on};
ghost use Rattle.board.specs.View.{standings_on, view};
ghost use Rattle.plan.specs.Placing.{order};
ghost use Rattle.std.specs.Result.{result_err};

use crate::board::Board;
use crate::fault::BoardFault;

impl Board {
    // The clock.
    pub fn clock(&self) -> u64
        ensures { result ≡ (view self.now).clock }
    {
        self.clock
    }

    // The number of the task that a lane serves: the first in order on that lane with a job that waits.
    pub(crate) fn served(&self, lane: usize) -> Option<usize>
        ensures value { result ≡ next_on (plan_of self.now.seats) lane (standings_on self.now) (order (tasks_on self.now.seats)) }
        ensures bound { IfSome result (λ number. number < length (tasks_on self.now.seats)) }
    {
        self.jobs.next(lane)
    }

    // Whether the lane has a job to serve.
    pub(crate) fn is_busy(&self, lane: usize) -> bool
        ensures { result ≡ busy (view self.now) lane }
    {
        lane < self.seats.lanes() && self.served(lane).is_some()
    }

    // The byte whose bit k says that lane k has a job to serve.
    pub(crate) fn busy_lanes(&self) -> u8
        ensures { result ≡ busy_byte (view self.now) }
    {
        let mut byte = 0;
        for lane in (0..self.seats.lanes()).rev() {
            byte = with_low_bit(byte, self.is_busy(lane));
        }
        byte
    }

    // Every bit that is set is that of a lane with a job to serve.
    pub(crate) fn all_served(&self, finished: u8) -> Result<(), BoardFault>
        ensures { first_fault (map (not_served (view self.now) finished) (count_from 0 8)) ≡ result_err result }
    {
        match (0..8).find(|&lane| bit_of(finished, lane) && !self.is_busy(lane)) {
            Some(lane) => Err(BoardFault::NotServed(lane)),
            None => Ok(()),
        }
    }

    // Serves one slot on every lane. Bit k of the answer says that the job of lane k closes.
    // Not one function with `busy_lanes`: its closure would change the jobs, and a contract that tells of each call is longer than both loops.
    pub(crate) fn serve_lanes(&mut self, finished: u8) -> u8
        ensures { LanesServed self.old finished result self.new }
    {
        let mut byte = 0;
        for lane in (0..self.seats.lanes()).rev() {
            let closed = self.jobs.serve(&self.seats, lane, bit_of(finished, lane));
            byte = with_low_bit(byte, closed);
        }
        byte
    }
}

// The byte with one bit more, below all others.
pub(crate) fn with_low_bit(byte: u8, low: bool) -> u8
    requires { byte < 128 }
    ensures { result ≡ (if low then 1 else 0) + 2 * byte }
{
    u8::from(low) + 2 * byte
}

// Bit k of a byte.
pub(crate) fn bit_of(byte: u8, k: usize) -> bool
    requires { k < 8 }
    ensures { result ≡ bit byte k }
{
    (byte >> k) % 2 == 1
}
