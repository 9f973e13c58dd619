// The calls that a board takes.
ghost use Rattle.std.specs.Prelude.{◌≡◌, false, []};
ghost use Rattle.board.specs.Calls.{Answered};
ghost use Rattle.board.specs.PlainBoard.{after_call, answer_to, new_board};
ghost use Rattle.board.specs.Promise.{SetUp};
ghost use Rattle.board.specs.View.{view};
ghost use Rattle.board.specs.declared.call.Answer.TheVariants as answer;
ghost use Rattle.board.specs.declared.call.Call.TheVariants as call;
ghost use Rattle.tasks.specs.Filling.{tasks_of};

use crate::board::Board;
use crate::call::{Answer, Call};
use crate::fault::BoardFault;
use crate::jobs::Jobs;
use crate::seats::Seats;
use fit::question::FitTest;
use plan::check::check;
use tasks::list::TaskList;

// The clock's end.
pub const CLOCK_END: u64 = 1_099_511_627_776;

impl Board {
    // The board of the list that every box begins with, at clock 0.
    pub fn new() -> Board
        ensures { view result ≡ new_board [] 1 [] 0 }
    {
        Board {
            seats: Seats::none(),
            jobs: Jobs::none(),
            clock: 0,
            slot_open: false,
        }
    }

    // How many jobs of the task wait.
    pub fn waiting(&self, task: usize) -> Result<usize, BoardFault>
        ensures { Answered (view self.now) (call.Waiting task) answer.Waiting result (view self.now) }
    {
        if task >= self.seats.count() {
            return Err(BoardFault::NoTask(task));
        }
        Ok(self.jobs.queue(task).count())
    }

    // The task that the lane serves in the open slot, if it serves one.
    pub fn serving(&self, lane: usize) -> Result<Option<usize>, BoardFault>
        ensures { Answered (view self.now) (call.Serving lane) answer.Serving result (view self.now) }
    {
        if lane >= self.seats.lanes() {
            return Err(BoardFault::NoLane(lane));
        }
        if !self.slot_open {
            return Err(BoardFault::SlotShut(self.clock));
        }
        Ok(self.served(lane))
    }

    // Makes this a new board, of the list's tasks on the lanes of the plan, at the starting clock.
    // List, plan, clock and test are the caller's own four things: a struct of them would only be taken apart here.
    pub fn set_up<F: FitTest>(
        &mut self,
        list: &TaskList,
        plan: &[u8],
        start: u64,
        test: &F,
    ) -> Result<(), BoardFault>
        ensures { SetUp (F.FitTest.yes test.now) list.now.lanes (tasks_of list.now) plan.now start (view self.old) result (view self.new) }
    {
        check(list, plan, test)?;
        if start > CLOCK_END {
            return Err(BoardFault::ClockEnd(start));
        }
        *self = Board {
            seats: Seats::new(list, plan),
            jobs: Jobs::none(),
            clock: start,
            slot_open: false,
        };
        Ok(())
    }

    // Takes a job of the task, released at the present clock, and answers the clock by which it will be closed.
    pub fn post(&mut self, task: usize) -> Result<u64, BoardFault>
        ensures { Answered (view self.old) (call.Post task) answer.Posted result (view self.new) }
    {
        if task >= self.seats.count() {
            return Err(BoardFault::NoTask(task));
        }
        if self.slot_open {
            return Err(BoardFault::SlotOpen(self.clock));
        }
        let numbers = self.seats.task(task);
        let next = self.jobs.queue(task).next_release(numbers);
        if self.clock < next {
            return Err(BoardFault::Early(next));
        }
        self.jobs
            .post(&self.seats, task, self.clock)
            .map_err(|_| BoardFault::QueueFull(task))?;
        Ok(self.clock + u64::from(numbers.limit))
    }

    // Opens a slot, and answers the byte whose bit k says that lane k has a job to serve.
    pub fn begin(&mut self) -> Result<u8, BoardFault>
        ensures { Answered (view self.old) call.Begin answer.Begun result (view self.new) }
    {
        if self.slot_open {
            return Err(BoardFault::SlotOpen(self.clock));
        }
        if self.clock >= CLOCK_END {
            return Err(BoardFault::ClockEnd(self.clock));
        }
        let busy = self.busy_lanes();
        self.slot_open = true;
        Ok(busy)
    }

    // Shuts the slot: every lane serves one slot, and the clock rises by one. Bit k of the byte handed in says that the job
    // of lane k is finished; bit k of the answer says that it is closed.
    pub fn end(&mut self, finished: u8) -> Result<u8, BoardFault>
        ensures { Answered (view self.old) (call.End finished) answer.Ended result (view self.new) }
    {
        if !self.slot_open {
            return Err(BoardFault::SlotShut(self.clock));
        }
        self.all_served(finished)?;
        let closed = self.serve_lanes(finished);
        self.slot_open = false;
        self.clock += 1;
        Ok(closed)
    }

    // Answers any call. A match and no closure: a call is data, since a day is a list of calls.
    pub fn answer(&mut self, asked: Call) -> Answer
        ensures value { result ≡ answer_to (view self.old) asked }
        ensures after { view self.new ≡ after_call (view self.old) asked }
    {
        match asked {
            Call::Post(task) => self.post(task).map_or_else(Answer::Refused, Answer::Posted),
            Call::Begin => self.begin().map_or_else(Answer::Refused, Answer::Begun),
            Call::End(finished) => self
                .end(finished)
                .map_or_else(Answer::Refused, Answer::Ended),
            Call::Serving(lane) => self
                .serving(lane)
                .map_or_else(Answer::Refused, Answer::Serving),
            Call::Waiting(task) => self
                .waiting(task)
                .map_or_else(Answer::Refused, Answer::Waiting),
            Call::Clock => Answer::Clock(self.clock()),
        }
    }
}
