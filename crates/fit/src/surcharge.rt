// A test over another one: every work is raised by what a switch between jobs costs.
ghost use Rattle.std.specs.Prelude.{◌≡◌, ℕ, ◌+◌, [], ◌∷◌, ◌++◌, map, length, take, Decides};
ghost use Rattle.std.proofs.Common.{subst};
ghost use Rattle.fit.specs.Tests.{CostRange, Held, Room, SurchargeYes, raised};
ghost use Rattle.std.specs.List.{AllByRecursion};
ghost use Rattle.tasks.specs.Task.{Bounded, widest_grid};
ghost use Rattle.tasks.specs.declared.fault.Setting.TheVariants.{SwitchCost};
ghost use Rattle.tasks.specs.declared.record.TaskRecord.{TaskRecord};
ghost use Rattle.fit.specs.Copies.{raised_lane};
ghost use Rattle.fit.specs.Works.{safe_with_larger_works};
ghost use Rattle.fit.specs.Lane.{SafeTask};
ghost use Rattle.std.proofs.lemmas.List.{length-map};

use crate::askable::{LONGEST_ROW, Question};
use crate::question::FitTest;
use tasks::fault::{ListFault, Setting};
use tasks::record::TaskRecord;

// The highest switch cost.
const HIGHEST_COST: u32 = 1_000;

// The test below, asked about works with the switch cost added.
#[derive(Drop, Debug, PartialEq, Eq)]
pub struct Surcharge<T> {
    below: T,
    cost: u32,
    ghost in_range: { CostRange cost },
}

impl<T: FitTest + Drop> Surcharge<T> {
    // A surcharge of this switch cost, from 0 to 1,000, over a test.
    pub fn new(below: T, cost: u32) -> Result<Surcharge<T>, ListFault>
        ensures { Held (CostRange cost) SwitchCost (λ test. (test.below ≡ below) × (test.cost ≡ cost)) result }
    {
        if cost <= HIGHEST_COST {
            Ok(Surcharge { below, cost })
        } else {
            Err(ListFault::OutOfRange(Setting::SwitchCost))
        }
    }
}

impl<T: FitTest> Surcharge<T> {
    // The switch cost that the test holds.
    pub fn cost(&self) -> u32
        ensures value { result ≡ self.now.cost }
        ensures in_range { CostRange result }
    {
        self.cost
    }

    // Whether a task's raised work passes neither its limit nor its gap.
    // Of a record and not a `Task`, to make which would test the bounds of every task again.
    fn has_room(&self, t: TaskRecord) -> bool
        requires { Bounded widest_grid t }
        ensures { Decides result (Room self.now.cost t) }
    {
        t.work + self.cost <= t.limit && t.work + self.cost <= t.gap
    }

    // A task with its raised work.
    fn raised_task(&self, t: TaskRecord) -> TaskRecord
        requires { Bounded widest_grid t }
        ensures { result ≡ raised self.now.cost t }
    {
        TaskRecord {
            work: t.work + self.cost,
            limit: t.limit,
            gap: t.gap,
        }
    }

    // Whether every task of a question has room for its raised work.
    fn all_have_room(&self, question: &Question) -> bool
        ensures { Decides result (AllByRecursion (Room self.now.cost) question.now.row.now × Room self.now.cost question.now.asked) }
    {
        question.row.iter().all(|t| self.has_room(*t)) && self.has_room(question.asked)
    }

    // A question's row with raised works, in the first places of the result. With no heap it is an array of the longest row's length, and
    // no `array::from_fn`, which goes over all its places: most rows are shorter.
    fn raised_row(&self, question: &Question) -> [TaskRecord; LONGEST_ROW]
        ensures { take (length question.now.row.now) result ≡ map (raised self.now.cost) question.now.row.now }
    {
        let mut dear = [TaskRecord::default(); LONGEST_ROW];
        for (place, t) in question.row.iter().enumerate() {
            dear[place] = self.raised_task(*t);
        }
        dear
    }

    // Whether the test below says yes to a question with raised works.
    fn below_says_yes(&self, question: &Question) -> bool
        ensures { Decides result (T.FitTest.yes self.now.below (map (raised self.now.cost) question.now.row.now) (raised self.now.cost question.now.asked)) }
    {
        let row = self.raised_row(question);
        self.below.fits(&row[..question.row.len()], self.raised_task(question.asked))
    }

    // Whether the test says yes to a question.
    fn says_yes(&self, question: &Question) -> bool
        ensures { Decides result (SurchargeYes self.now.cost (T.FitTest.yes self.now.below) question.now.row.now question.now.asked) }
    {
        self.all_have_room(question) && self.below_says_yes(question)
    }
}

impl<T: FitTest> FitTest for Surcharge<T> {
    ghost yes = { λ test row asked. SurchargeYes test.cost (T.FitTest.yes test.below) row asked };

    // What can be late can be late with larger works, and the raised task cannot be late.
    ghost safe = { λ test row asked h.
        let dear = map (raised test.cost) row ++ (raised test.cost asked ∷ []) in
        safe_with_larger_works (row ++ (asked ∷ [])) dear (length row) (raised_lane test.cost row asked)
        (subst (λ (n : ℕ). SafeTask dear n) (length-map row (raised test.cost))
        (T.FitTest.safe test.below (map (raised test.cost) row) (raised test.cost asked) h.below)) };

    fn fits(&self, row: &[TaskRecord], asked: TaskRecord) -> bool {
        Question::new(row, asked).is_some_and(|question| self.says_yes(&question))
    }
}
