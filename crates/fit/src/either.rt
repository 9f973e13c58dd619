// A test over two others.
ghost use Rattle.fit.specs.Tests.{EitherYes};
ghost use Rattle.tasks.specs.declared.record.TaskRecord.{TaskRecord};
ghost use Rattle.std.proofs.Common.{⊎_elim};

use crate::question::FitTest;
use tasks::record::TaskRecord;

// Says yes where at least one of its two tests does.
#[derive(Drop, Debug, PartialEq, Eq)]
pub struct Either<A, B> {
    pub first: A,
    pub second: B,
}

impl<A: FitTest, B: FitTest> FitTest for Either<A, B> {
    ghost yes = { λ test row asked. EitherYes (A.FitTest.yes test.first) (B.FitTest.yes test.second) row asked };

    ghost safe = { λ test row asked h. ⊎_elim (A.FitTest.safe test.first row asked) (B.FitTest.safe test.second row asked) h };

    fn fits(&self, row: &[TaskRecord], asked: TaskRecord) -> bool {
        self.first.fits(row, asked) || self.second.fits(row, asked)
    }
}
