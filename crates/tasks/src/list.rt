// A task list: no list exists that breaks a bound.
ghost use Rattle.std.specs.Prelude.{ℕ, ◌<◌, length, slice_index_or};
ghost use Rattle.tasks.specs.List.{held, blank};
ghost use Rattle.tasks.specs.Task.{GridRange, LaneRange, WorkFits, InRanges, OnGrid};

use crate::table::Table;

mod fill;

// A grid, a lane count, and tasks that are numbered from 0.
#[derive(Clone, Copy)]
pub struct TaskList {
    grid: u32,
    lanes: u8,
    table: Table,
    ghost grid_range: { GridRange grid },
    ghost lane_range: { LaneRange lanes },
    ghost works: { (k : ℕ) → k < length (held table) → WorkFits (slice_index_or (held table) k blank) },
    ghost ranges: { (k : ℕ) → k < length (held table) → InRanges grid (slice_index_or (held table) k blank) },
    ghost on_grid: { (k : ℕ) → k < length (held table) → OnGrid grid (slice_index_or (held table) k blank) },
}
