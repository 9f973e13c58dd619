// What a fit test is.
ghost use Rattle.std.specs.Prelude.{List, [], ◌∷◌, ◌++◌, length, Decides};
ghost use Rattle.fit.specs.Lane.{SafeTask};
ghost use Rattle.tasks.specs.declared.record.TaskRecord.{TaskRecord};

use tasks::record::TaskRecord;

// Asked about a row of tasks, the earlier going first, and one more task: may it join at the end?
pub trait FitTest {
    // The questions that the test answers with yes: its whole meaning.
    ghost yes: { Self → List TaskRecord → TaskRecord → Type 0 };

    fn fits(&self, row: &[TaskRecord], asked: TaskRecord) -> bool
        ensures { Decides result (yes self.now row.now asked) };

    // After a yes, no run of the row with the asked task at its end has a late job of that task.
    ghost safe: { (test : Self) (row : List TaskRecord) (asked : TaskRecord) → yes test row asked → SafeTask (row ++ (asked ∷ [])) (length row) };
}
