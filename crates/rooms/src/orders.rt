// The orders by age and by rank, which remember nothing.
ghost use Rattle.rooms.specs.First.{by_age, by_rank};
ghost use Rattle.std.proofs.Common.{rules};

use crate::entry::Entry;
use crate::order::Order;
use std::cmp::Reverse;

// By age: the smaller ticket goes first.
#[derive(Drop)]
pub struct Age;

impl Order for Age {
    ghost first = { λ _. by_age };

    ghost total = { λ _. Prim.search rules };

    ghost transitive = { λ _. Prim.search rules };

    ghost strict = { λ _. Prim.search rules };

    fn new() -> Age {
        Age
    }

    fn goes_first(&self, x: Entry, y: Entry) -> bool {
        x.ticket <= y.ticket
    }

    fn chosen(&mut self, _e: Entry) {}
}

// By rank: the greater rank goes first, among equals the smaller ticket.
#[derive(Drop)]
pub struct Rank;

impl Order for Rank {
    ghost first = { λ _. by_rank };

    ghost total = { λ _. Prim.search rules };

    ghost transitive = { λ _. Prim.search rules };

    ghost strict = { λ _. Prim.search rules };

    fn new() -> Rank {
        Rank
    }

    fn goes_first(&self, x: Entry, y: Entry) -> bool {
        (Reverse(x.rank), x.ticket) <= (Reverse(y.rank), y.ticket)
    }

    fn chosen(&mut self, _e: Entry) {}
}
