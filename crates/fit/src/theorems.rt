// What is proved of every run of a plain lane: each function's contract is one theorem.
ghost use Rattle.fit.specs.Theorems.{LowerTasksNeverDisturb, WaitsAlone, SafeInTurn, AcceptedLanesAreSafe};
ghost use Rattle.fit.specs.Theorems.{LargerWorksWaitNoLess, SafeWithLargerWorks, SharesBoundWaiting, CountsBoundWaiting};
ghost use Rattle.fit.specs.Theorems.{RoomForARelease, OverfullLaneIsLate, AJobMayFinishEarly};

use crate::question::FitTest;

// Lower tasks never disturb higher ones.
pub fn lower_tasks_never_disturb_higher()
    ensures runs { LowerTasksNeverDisturb }
    ensures waits { WaitsAlone }
{}

// A lane is safe if each of its tasks is safe at the end of those before it.
pub fn lane_is_safe_if_each_task_is_in_turn()
    ensures { SafeInTurn }
{}

// Whichever fit test accepted every task of a lane over those before it: no run has a late job.
pub fn accepted_lane_has_no_late_job<F: FitTest>(test: &F)
    ensures { AcceptedLanesAreSafe (F.FitTest.yes test.now) }
{}

// Larger works only make a lane worse: what is safe with them is safe without.
pub fn larger_works_are_never_safer()
    ensures waits { LargerWorksWaitNoLess }
    ensures safe { SafeWithLargerWorks }
{}

// The share rule, over any scale and any shares that are at least their fractions.
pub fn shares_bound_waiting()
    ensures { SharesBoundWaiting }
{}

// The exact rule, over any count of jobs that covers the time.
pub fn counts_bound_waiting()
    ensures { CountsBoundWaiting }
{}

// A safe task never has more jobs waiting than gaps in its limit.
pub fn safe_task_has_room_for_each_release()
    ensures { RoomForARelease }
{}

// The model has late jobs: some run of an overfull lane has one.
pub fn overfull_lane_has_a_late_job()
    ensures { OverfullLaneIsLate }
{}

// The model has jobs that finish early, and jobs that do not.
pub fn a_job_may_finish_early()
    ensures { AJobMayFinishEarly }
{}
