// Tests of the ordered queue, at an order without ties and at one with ties.
#![tactic(auto)]

ghost use Rattle.queue_tests.specs.Order.{rank_before, ticket_before};
ghost use Rattle.std.proofs.Common.{rules};

use queue::Ordered;

// A record of the order by limit and number, as a task's; the queue knows no task.
#[derive(Clone, Copy, PartialEq, Eq, PartialOrd, Ord, Debug)]
pub struct Rank {
    pub limit: u32,
    pub number: usize,
}

impl Ordered for Rank {
    ghost before = { rank_before };

    ghost one_way = { Prim.search rules };

    ghost chain = { Prim.search rules };

    fn goes_before(&self, other: &Rank) -> bool {
        self < other
    }
}

// A record of the order by limit alone: two of one limit tie though they differ. The library's order, by limit and tag, is another.
#[derive(Clone, Copy, PartialEq, Eq, PartialOrd, Ord, Debug)]
pub struct Ticket {
    pub limit: u32,
    pub tag: u8,
}

impl Ordered for Ticket {
    ghost before = { ticket_before };

    ghost one_way = { Prim.search rules };

    ghost chain = { Prim.search rules };

    fn goes_before(&self, other: &Ticket) -> bool {
        self.limit < other.limit
    }
}

pub mod ranking;
#[cfg(test)]
mod tests;
