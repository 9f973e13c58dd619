// The waiting jobs of all tasks, and the task that each lane serves.
ghost use Rattle.std.specs.Prelude.{◌≡◌, ◌<◌, ◌≤◌, ◌&&◌, ◌==◌, None, map, length, replicate, slice_index_or};
ghost use Rattle.board.specs.PlainBoard.{clock_end};
ghost use Rattle.board.specs.Queues.{JobTaken, has_job, standing, stands_at};
ghost use Rattle.board.specs.Seating.{plan_of, tasks_on};
ghost use Rattle.fit.specs.Lane.{unreleased};
ghost use Rattle.plan.specs.Placing.{lane_of};
ghost use Rattle.std.specs.Option.{unwrap_or};

use crate::seats::Seats;
use crate::task_queue::TaskQueue;
use queue::Full;
use tasks::table::MOST_TASKS;

// The queue of each task, by the task's number, and for each lane the number of the task that it serves.
// That number is at hand, so that no slot has to look for it.
#[derive(Clone, Copy)]
pub(crate) struct Jobs {
    queues: [TaskQueue; 32],
    next: [Option<usize>; 4],
    ghost long: { length queues ≡ 32 },
    ghost four: { length next ≡ 4 },
}

impl Jobs {
    ghost use Rattle.board.specs.Steps.{KnowsNext, SlotGiven, next_task};

    // No job and no release, and no lane serves a task.
    pub(crate) fn none() -> Jobs
        ensures queues { map standing result.queues ≡ replicate 32 unreleased }
        ensures next { result.next ≡ replicate 4 None }
    {
        Jobs {
            queues: [TaskQueue::new(); MOST_TASKS],
            next: [None; 4],
        }
    }

    // The queue of the task of this number.
    pub(crate) fn queue(&self, number: usize) -> &TaskQueue
        requires { number < 32 }
        ensures { standing result.now ≡ stands_at (map standing self.now.queues) number }
    {
        &self.queues[number]
    }

    // The number of the task that the lane serves. A lane past the fourth serves none.
    pub(crate) fn next(&self, lane: usize) -> Option<usize>
        ensures { result ≡ slice_index_or self.now.next lane None }
    {
        *self.next.get(lane)?
    }

    // The first task in order on the lane with a job that waits.
    fn first_waiting(&self, seats: &Seats, lane: usize) -> Option<usize>
        ensures { result ≡ next_task (tasks_on seats.now) (plan_of seats.now) (map standing self.now.queues) lane }
    {
        seats
            .order()
            .iter()
            .copied()
            .find(|&number| self.waits_on(seats, lane, number))
    }

    // Whether the task sits on the lane and has a job that waits.
    fn waits_on(&self, seats: &Seats, lane: usize, number: usize) -> bool
        requires { number < length (tasks_on seats.now) }
        ensures { result ≡ (lane_of (plan_of seats.now) number == lane && has_job (stands_at (map standing self.now.queues) number)) }
    {
        seats.lane(number) == lane && self.queues[number].is_waiting()
    }

    // Takes a job of the task that is released at this clock, unless four wait. Its lane looks anew.
    // The seats are lent and no field: the board's invariant ties both, and would have to hold after `post` on the queue alone.
    pub(crate) fn post(&mut self, seats: &Seats, number: usize, clock: u64) -> Result<(), Full<u64>>
        requires inside { number < length (tasks_on seats.now) }
        requires in_time { clock ≤ clock_end }
        requires no_later { unwrap_or (stands_at (map standing self.old.queues) number).last 0 ≤ clock }
        requires at_hand { KnowsNext seats.now self.old }
        ensures taken { JobTaken (map standing self.old.queues) number clock result (map standing self.new.queues) }
        ensures at_hand { KnowsNext seats.now self.new }
    {
        // As a slice: the borrow checker cannot yet lend one element of an array field.
        let queues: &mut [TaskQueue] = &mut self.queues;
        queues[number].post(clock)?;
        let lane = seats.lane(number);
        self.next[lane] = self.first_waiting(seats, lane);
        Ok(())
    }

    // Serves one slot to the task that the lane serves, if it serves one, and says whether its job closes. Then the lane looks anew.
    pub(crate) fn serve(&mut self, seats: &Seats, lane: usize, said: bool) -> bool
        requires at_hand { KnowsNext seats.now self.old }
        ensures served { SlotGiven (tasks_on seats.now) (plan_of seats.now) (map standing self.old.queues) lane said result (map standing self.new.queues) }
        ensures at_hand { KnowsNext seats.now self.new }
    {
        let Some(number) = self.next(lane) else {
            return false;
        };
        let queues: &mut [TaskQueue] = &mut self.queues;
        if !queues[number].serve(seats.task(number), said) {
            return false;
        }
        self.next[lane] = self.first_waiting(seats, lane);
        true
    }
}
