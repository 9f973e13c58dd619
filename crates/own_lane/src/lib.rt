// A fit test of one's own, as an example: a task must have a lane to itself.
#![tactic(auto)]

ghost use Rattle.own_lane.specs.OwnLane.{OwnLaneYes};
ghost use Rattle.own_lane.specs.OwnLaneFitLemmas.{own_lane_safe};

use fit::question::FitTest;
use tasks::record::TaskRecord;
use tasks::task::WIDEST_GRID;

#[cfg(test)]
mod tests;

// Says yes to any lawful task on an empty lane.
#[derive(Clone, Copy, Debug, PartialEq, Eq)]
pub struct OwnLane;

impl FitTest for OwnLane {
    ghost yes = { λ test row asked. OwnLaneYes row asked };

    ghost safe = { λ test row asked h. own_lane_safe row asked h };

    fn fits(&self, row: &[TaskRecord], asked: TaskRecord) -> bool {
        row.is_empty() && asked.bounded(WIDEST_GRID)
    }
}
