// The exact test: the response time of the asked task (Audsley, Burns, Richardson and Wellings, 1991).
ghost use Rattle.std.specs.Prelude.{◌≡◌, ◌+◌, ◌^◌, ◌≤◌, Decides, sum_by};
ghost use Rattle.fit.specs.Tests.{EnoughTime, ExactYes, RoundingUpCovers, requests};
ghost use Rattle.tasks.specs.Task.{Bounded, widest_grid};
ghost use Rattle.fit.specs.Laws.{exact_safe};

use crate::askable::Question;
use crate::question::FitTest;
use tasks::record::TaskRecord;

// The exact test, for tasks whose limit lies within their gap.
#[derive(Clone, Copy, Debug, PartialEq, Eq)]
pub struct Exact;

// ⌈t/p⌉ is the least whole k with t ≤ k * p.
pub fn rounding_up_covers()
    ensures { RoundingUpCovers }
{}

// The most work that a task asks for within a time.
// Of a record and not a `Task`, to make which would test the bounds of every task again.
fn requests_of(time: u32, t: TaskRecord) -> u64
    requires { Bounded widest_grid t }
    ensures value { result ≡ requests time t }
    ensures bound { result ≤ 2 ^ 52 }
    ensures small { time ≤ 2 ^ 20 → result ≤ 2 ^ 40 }
{
    time.div_ceil(t.gap) as u64 * t.work as u64
}

// The most work that the asked task, once, and the row ask for within a time.
fn demand(question: &Question, time: u32) -> u64
    ensures value { result ≡ question.now.asked.work + sum_by (requests time) question.now.row.now }
    ensures small { time ≤ 2 ^ 20 → result ≤ 2 ^ 46 }
{
    let row: u64 = question.row.iter().map(|t| requests_of(time, *t)).sum();
    question.asked.work as u64 + row
}

// Whether some time up to the limit has room for what is asked for within it. The least such time, if there is one,
// is what the demand grows to from that of the first slot.
fn enough_time(question: &Question) -> bool
    ensures { Decides result (EnoughTime question.now.row.now question.now.asked) }
{
    let limit = question.asked.limit as u64;
    let mut time = demand(question, 1);
    while time <= limit {
        // At most the limit, so 32 bits hold it, and a division of 64 bits would be slower.
        let next = demand(question, time as u32);
        if next <= time {
            return true;
        }
        time = next;
    }
    false
}

impl FitTest for Exact {
    ghost yes = { λ test row asked. ExactYes row asked };

    ghost safe = { λ test row asked h. exact_safe row asked h };

    fn fits(&self, row: &[TaskRecord], asked: TaskRecord) -> bool {
        Question::new(row, asked).is_some_and(|question| asked.limit <= asked.gap
            && enough_time(&question))
    }
}
