// What every test looks at first: the length of the row, and the bounds of each task.
ghost use Rattle.fit.specs.Tests.{Askable};
ghost use Rattle.std.specs.Prelude.{MatchOption, ◌≡◌};
ghost use Rattle.std.proofs.Props.{props};
ghost use Rattle.std.specs.List.{All};
ghost use Rattle.tasks.specs.Task.{Bounded, widest_grid};

use tasks::record::TaskRecord;
use tasks::task::WIDEST_GRID;

// The longest row that a test may be asked about.
pub(crate) const LONGEST_ROW: usize = 31;

// A question that may be asked: a row, and one more task that would join at its end.
#[derive(Clone, Copy)]
pub(crate) struct Question<'a> {
    pub(crate) row: &'a [TaskRecord],
    pub(crate) asked: TaskRecord,
    ghost askable: { Askable row.now asked } by { Prim.hlevel props },
    // The bounds once more, place by place: so the chains over the row read them.
    ghost row_bounded: { All (Bounded widest_grid) row.now },
}

impl<'a> Question<'a> {
    // The question, or none where it may not be asked.
    pub(crate) fn new(row: &'a [TaskRecord], asked: TaskRecord) -> Option<Question<'a>>
        ensures { MatchOption result (Askable row.now asked → ⊥) (λ q. (q.row.now ≡ row.now) × (q.asked ≡ asked)) }
    {
        if row.len() <= LONGEST_ROW
            && asked.bounded(WIDEST_GRID)
            && row.iter().all(|t| t.bounded(WIDEST_GRID))
        {
            Some(Question { row, asked })
        } else {
            None
        }
    }
}
