// The linear test: the request bounds of the row as straight lines (Fisher, Baruah and Baker, ECRTS 2006).
ghost use Rattle.std.specs.Prelude.{◌≡◌, ◌+◌, ◌*◌, ◌^◌, ◌≤◌, Decides, sum_by};
ghost use Rattle.fit.specs.Fractions.{LawfulQuestion, Standard};
ghost use Rattle.fit.specs.Tests.{Held, LinearYes, line, share};
ghost use Rattle.std.specs.List.{AllByRecursion};
ghost use Rattle.tasks.specs.Task.{Bounded, GridRange, OnGrid, widest_grid};
ghost use Rattle.tasks.specs.declared.fault.Setting.TheVariants.{Grid};
ghost use Rattle.tasks.specs.declared.record.TaskRecord.{TaskRecord};
ghost use Rattle.fit.specs.Laws.{linear_safe};

use crate::askable::Question;
use crate::question::FitTest;
use tasks::fault::{ListFault, Setting};
use tasks::list::TaskList;
use tasks::record::TaskRecord;
use tasks::task::WIDEST_GRID;

// The linear test over a grid, which every gap must divide.
#[derive(Clone, Copy, Debug, PartialEq, Eq)]
pub struct Linear {
    grid: u32,
    ghost in_range: { GridRange grid },
}

impl Linear {
    // A test over this grid, from 1 to 16,777,216.
    pub fn new(grid: u32) -> Result<Linear, ListFault>
        ensures { Held (GridRange grid) Grid (λ test. test.grid ≡ grid) result }
    {
        if 1 <= grid && grid <= WIDEST_GRID {
            Ok(Linear { grid })
        } else {
            Err(ListFault::OutOfRange(Setting::Grid))
        }
    }

    // The test over a list's grid, which is always in a test's range.
    pub fn over(list: &TaskList) -> Linear
        ensures { result.grid ≡ list.now.grid }
    {
        Linear { grid: list.grid() }
    }

    // The grid that the test holds.
    pub fn grid(&self) -> u32
        ensures value { result ≡ self.now.grid }
        ensures in_range { GridRange result }
    {
        self.grid
    }

    // A task's share of the lane, in parts of the grid: at most the whole.
    // Of a record and not a `Task`, to make which would test the bounds of every task again.
    fn share_of(&self, t: TaskRecord) -> u64
        requires { Bounded widest_grid t }
        ensures value { result ≡ share self.now.grid t }
        ensures bound { result ≤ widest_grid }
    {
        t.work as u64 * (self.grid / t.gap) as u64
    }

    // The bound on the work that a task asks for within a time, in parts of the grid.
    fn line_of(&self, t: TaskRecord, time: u32) -> u64
        requires { Bounded widest_grid t }
        ensures value { result ≡ line self.now.grid time t }
        ensures bound { result ≤ 2 ^ 57 }
        ensures small { time ≤ 2 ^ 20 → result ≤ 2 ^ 45 }
    {
        let work = self.grid as u64 * t.work as u64;
        work + self.share_of(t) * time as u64
    }

    // The shares of a question's row together.
    fn shares_of(&self, question: &Question) -> u64
        ensures value { result ≡ sum_by (share self.now.grid) question.now.row.now }
        ensures bound { result ≤ 31 * widest_grid }
    {
        question.row.iter().map(|t| self.share_of(*t)).sum()
    }

    // The bounds of a question's row together, within the asked task's limit.
    fn lines_of(&self, question: &Question) -> u64
        ensures value { result ≡ sum_by (line self.now.grid question.now.asked.limit) question.now.row.now }
        ensures bound { result ≤ 31 * 2 ^ 45 }
    {
        let limit = question.asked.limit;
        question.row.iter().map(|t| self.line_of(*t, limit)).sum()
    }

    // Whether every gap of a question divides the grid.
    fn all_on_grid(&self, question: &Question) -> bool
        ensures { Decides result (AllByRecursion (OnGrid self.now.grid) question.now.row.now × OnGrid self.now.grid question.now.asked) }
    {
        let asked_on_grid = self.grid % question.asked.gap == 0;
        asked_on_grid && question.row.iter().all(|t| self.grid % t.gap == 0)
    }

    // Whether the asked task's work fits its limit beside the row (inequality 5).
    fn in_time(&self, question: &Question) -> bool
        ensures { Decides result (self.now.grid * question.now.asked.work + sum_by (line self.now.grid question.now.asked.limit) question.now.row.now ≤ self.now.grid * question.now.asked.limit) }
    {
        let asked = question.asked;
        let work = self.grid as u64 * asked.work as u64;
        let room = self.grid as u64 * asked.limit as u64;
        let lines = self.lines_of(question);
        work + lines <= room
    }

    // Whether the shares fit the lane (inequality 6).
    fn shares_fit(&self, question: &Question) -> bool
        ensures { Decides result (share self.now.grid question.now.asked + sum_by (share self.now.grid) question.now.row.now ≤ self.now.grid) }
    {
        let shares = self.shares_of(question);
        self.share_of(question.asked) + shares <= self.grid as u64
    }

    // Whether the test says yes to a question.
    fn says_yes(&self, question: &Question) -> bool
        ensures { Decides result (LinearYes self.now.grid question.now.row.now question.now.asked) }
    {
        self.all_on_grid(question) && self.in_time(question) && self.shares_fit(question)
    }
}

impl FitTest for Linear {
    ghost yes = { λ test row asked. LinearYes test.grid row asked };

    ghost safe = { λ test row asked h. linear_safe test.grid row asked test.in_range h };

    // About lawful tasks on its grid the answer is that of the standard, in exact fractions.
    fn fits(&self, row: &[TaskRecord], asked: TaskRecord) -> bool
        ensures answer { Decides result (LinearYes self.now.grid row.now asked) }
        ensures standard { LawfulQuestion self.now.grid row.now asked → Decides result (Standard row.now asked) }
    {
        Question::new(row, asked).is_some_and(|question| self.says_yes(&question))
    }
}
