// The waiting jobs of one task.
ghost use Rattle.std.specs.Prelude.{◌≡◌, ◌≤◌, true, length};
ghost use Rattle.board.specs.PlainBoard.{clock_end};
ghost use Rattle.board.specs.Releases.{later_than};
ghost use Rattle.queue.specs.Queue.{count};
ghost use Rattle.std.specs.Option.{unwrap_or};

mod work;

// The task's last release, the releases of its waiting jobs, and the slots that the earliest of them was served.
// The later ones have had none.
#[derive(Clone, Copy)]
pub(crate) struct TaskQueue {
    last: Option<u64>,
    places: [Option<u64>; 4],
    served: u32,
    ghost four: { length places ≡ 4 },
    ghost no_later: { count (later_than last) places ≡ 0 },
    ghost in_time: { unwrap_or last 0 ≤ clock_end },
    ghost idle: { count (λ _. true) places ≡ 0 → served ≡ 0 },
}
