// What is proved of every placing and every check: each function's contract is one theorem.
ghost use Rattle.std.specs.Prelude.{ℕ, List};
ghost use Rattle.plan.specs.Placing.{OrderOfTasks, Settled};
ghost use Rattle.tasks.specs.declared.record.TaskRecord.{TaskRecord};

use fit::question::FitTest;

// The order lists every task once, and each task goes before the next.
pub fn order_lists_every_task_once()
    ensures { (tasks : List TaskRecord) → OrderOfTasks tasks }
{}

// Place and check have one answer each, whichever the fit test.
pub fn answers_are_settled<F: FitTest>(test: &F)
    ensures { (lanes : ℕ) (tasks : List TaskRecord) → Settled (F.FitTest.yes test.now) lanes tasks }
{}
