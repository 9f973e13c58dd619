// The order of tasks.
ghost use Rattle.std.specs.Prelude.{◌≡◌};
ghost use Rattle.std.proofs.Common.{rules};
ghost use Rattle.tasks.specs.Order.{StrictOrder, goes_before};

use queue::Ordered;

// What the order of tasks looks at: the lower limit goes first, then the lower number.
#[derive(Clone, Copy, Debug, PartialEq, Eq, PartialOrd, Ord)]
pub struct Rank {
    pub limit: u32,
    pub number: usize,
}

impl Rank {
    // Whether this task goes before the other.
    pub fn goes_before(&self, other: &Rank) -> bool
        ensures { result ≡ goes_before self.now other.now }
    {
        self < other
    }
}

// Ranks come out of the queue in the order of tasks.
impl Ordered for Rank {
    ghost before = { goes_before };

    ghost one_way = { Prim.search rules };

    ghost chain = { Prim.search rules };

    fn goes_before(&self, other: &Rank) -> bool {
        Rank::goes_before(self, other)
    }
}

// The order of tasks is strict, and it orders any two tasks of a list.
// The answer is always true and tells nothing: it stays since callers may take it.
pub fn tasks_have_one_order() -> bool
    ensures { StrictOrder }
{
    true
}
