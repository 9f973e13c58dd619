// What is proved of every board and every list of calls: each function's contract is one theorem.
// Each spells its premises out, so that it can be read alone.
ghost use Rattle.std.specs.Prelude.{ℕ, ◌<◌, List, length};
ghost use Rattle.board.specs.PlainBoard.{PlainBoard, after_calls, answers_to, new_board};
ghost use Rattle.board.specs.Promise.{AlwaysOnTime, AlwaysRuns, AlwaysTold, ClosedRightly, NeverFull, PlansAreJudged, Promise};
ghost use Rattle.board.specs.declared.call.Call.{Call};
ghost use Rattle.plan.specs.Placing.{LanesAreSafe, Passes, lane_of};
ghost use Rattle.std.specs.List.{AllByRecursion};
ghost use Rattle.tasks.specs.Task.{Lawful};
ghost use Rattle.tasks.specs.declared.record.TaskRecord.{TaskRecord};

use fit::question::FitTest;

// Whatever the calls, each lane of the board is on some run of the plain lane.
pub fn every_lane_is_on_a_run()
    ensures { (grid lanes : ℕ) (tasks : List TaskRecord) (plan : List ℕ) (start : ℕ) (calls : List Call) → AllByRecursion (Lawful grid) tasks → ((task : ℕ) → task < length tasks → lane_of plan task < lanes) → AlwaysRuns (new_board tasks lanes plan start) calls }
{}

// On safe lanes no job is late at any point of any list of calls.
pub fn no_job_is_late_on_safe_lanes()
    ensures { (grid lanes : ℕ) (tasks : List TaskRecord) (plan : List ℕ) (start : ℕ) (calls : List Call) → AllByRecursion (Lawful grid) tasks → ((task : ℕ) → task < length tasks → lane_of plan task < lanes) → LanesAreSafe lanes tasks plan → AlwaysOnTime (new_board tasks lanes plan start) calls }
{}

// On safe lanes a task has room for every job that it may release.
pub fn no_post_is_one_too_many_on_safe_lanes()
    ensures { (grid lanes : ℕ) (tasks : List TaskRecord) (plan : List ℕ) (start : ℕ) (calls : List Call) → AllByRecursion (Lawful grid) tasks → ((task : ℕ) → task < length tasks → lane_of plan task < lanes) → LanesAreSafe lanes tasks plan → NeverFull (answers_to (new_board tasks lanes plan start) calls) }
{}

// Whatever the calls, a slot's end takes one job from each lane whose bit it answers, and none from the others.
pub fn each_closed_bit_is_one_job_less()
    ensures { (grid lanes : ℕ) (tasks : List TaskRecord) (plan : List ℕ) (start : ℕ) (calls : List Call) → AllByRecursion (Lawful grid) tasks → ((task : ℕ) → task < length tasks → lane_of plan task < lanes) → AlwaysTold (new_board tasks lanes plan start) calls }
{}

// On any board, whichever the call, a job that closes does so rightly.
pub fn every_closing_is_right()
    ensures { (b : PlainBoard) (call : Call) → ClosedRightly b call }
{}

// Whichever the fit test: what holds of every plan for a task list.
pub fn plans_are_judged<F: FitTest>(test: &F)
    ensures { (lanes : ℕ) (tasks : List TaskRecord) → PlansAreJudged (F.FitTest.yes test.now) lanes tasks }
{}

// Whichever the fit test: on a plan that passes the check, the plain board keeps the promise over every list of calls.
pub fn plain_board_keeps_the_promise<F: FitTest>(test: &F)
    ensures { (grid lanes : ℕ) (tasks : List TaskRecord) (plan : List ℕ) (start : ℕ) (calls : List Call) → AllByRecursion (Lawful grid) tasks → Passes (F.FitTest.yes test.now) lanes tasks plan → Promise (F.FitTest.yes test.now) lanes tasks plan start calls (answers_to (new_board tasks lanes plan start) calls) (after_calls (new_board tasks lanes plan start) calls) }
{}
