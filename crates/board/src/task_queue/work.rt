// What the queue of a task does.
ghost use Rattle.std.specs.Prelude.{◌≡◌, ◌≤◌, length};
ghost use Rattle.board.specs.PlainBoard.{clock_end, first_closes, next_release};
ghost use Rattle.board.specs.Queues.{TakenIn, after_slot_of, has_job, standing};
ghost use Rattle.fit.specs.Lane.{unreleased};
ghost use Rattle.std.specs.Option.{unwrap_or};

use crate::task_queue::TaskQueue;
use queue::{Full, put, take};
use tasks::record::TaskRecord;

impl TaskQueue {
    // The queue of a task that has released nothing.
    #[tactic(auto, unfolding(crate::specs::Queues::standing))]
    pub(crate) fn new() -> TaskQueue
        ensures { standing result ≡ unreleased }
    {
        TaskQueue {
            last: None,
            places: [None; 4],
            served: 0,
        }
    }

    // The first clock at which the task may release a job.
    pub(crate) fn next_release(&self, task: TaskRecord) -> u64
        ensures { result ≡ next_release task (standing self.now) }
    {
        self.last.map_or(0, |last| last + u64::from(task.gap))
    }

    // How many jobs wait.
    pub(crate) fn count(&self) -> usize
        ensures { result ≡ length (standing self.now).waiting }
    {
        self.places.iter().filter(|place| place.is_some()).count()
    }

    // Whether a job waits.
    pub(crate) fn is_waiting(&self) -> bool
        ensures { result ≡ has_job (standing self.now) }
    {
        self.places.iter().any(|place| place.is_some())
    }

    // Takes a job that is released at this clock, unless four wait.
    pub(crate) fn post(&mut self, clock: u64) -> Result<(), Full<u64>>
        requires { (clock ≤ clock_end) × (unwrap_or (standing self.old).last 0 ≤ clock) }
        ensures { TakenIn self.old clock result self.new }
    {
        let mut places = self.places;
        put(&mut places, clock)?;
        self.places = places;
        self.last = Some(clock);
        Ok(())
    }

    // Serves one slot to the earliest waiting job, if one waits, and says whether it closes.
    pub(crate) fn serve(&mut self, task: TaskRecord, said: bool) -> bool
        ensures closed { result ≡ first_closes task said (standing self.old).waiting }
        ensures after { standing self.new ≡ after_slot_of task said (standing self.old) }
    {
        if !said && self.served < task.work.saturating_sub(1) {
            if self.is_waiting() {
                self.served += 1;
            }
            return false;
        }
        // Where no job waits, none has been served.
        self.served = 0;
        take(&mut self.places).is_some()
    }
}
