// The places in which a list keeps its tasks.
ghost use Rattle.std.specs.Prelude.{◌≡◌, ◌≤◌, length};

use crate::record::TaskRecord;

mod work;

// The most tasks a list may have.
pub const MOST_TASKS: usize = 32;

// The first `len` places hold the tasks, in the order of their numbers.
// An array with a count and no `Vec`: the core uses no heap. Lists are `Copy`, so no `ArrayVec`, which is not, and no model, whose view would
// forget the places past the count.
#[derive(Clone, Copy)]
pub struct Table {
    places: [TaskRecord; 32],
    len: usize,
    ghost long: { length places ≡ 32 },
    ghost few: { len ≤ 32 },
}
