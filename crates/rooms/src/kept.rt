// The room over an order of entries: of the entries whose operation is allowed the first in the order is chosen.
ghost use Rattle.std.specs.Prelude.{◌≡◌, ◌<◌, ◌≤◌, length, slice_index_or, MatchOption, IfSome, true};
ghost use Rattle.std.proofs.Common.{rules};
ghost use Rattle.rooms.specs.Entries.{NoTwice, Left, allows, none};
ghost use Rattle.rooms.specs.First.{First, Best, Chosen};
ghost use Rattle.rooms.specs.Sets.{Found, one_entry};
ghost use Rattle.rooms.specs.Best.{first_some};

use crate::entry::{Entry, PutFault};
use crate::order::Order;
use crate::waiting::Room;
use arrayvec::ArrayVec;

// An order, and at most 256 entries, of which no two have one ticket.
#[derive(Drop)]
pub struct Kept<O> {
    order: O,
    entries: ArrayVec<Entry, 256>,
    ghost few: { length entries.items ≤ 256 },
    ghost distinct: { NoTwice entries.items },
}

// Whether an operation is allowed.
fn is_allowed(allowed: &[bool; 64], operation: u8) -> bool
    ensures { result ≡ allows allowed.now operation }
{
    allowed
        .get(usize::from(operation))
        .copied()
        .unwrap_or(false)
}

impl<O: Order> Kept<O> {
    // The place of a ticket.
    fn find(&self, ticket: u32) -> Option<usize>
        ensures { Found self.now.entries.items ticket result }
    {
        self.entries.iter().position(|e| e.ticket == ticket)
    }

    // Removes the entry at a place, and answers it.
    #[tactic(auto, using(crate::specs::Sets::no_twice_left, crate::specs::Sets::left))]
    fn remove(&mut self, i: usize) -> Entry
        requires { i < length self.old.entries.items }
        ensures value { result ≡ slice_index_or self.old.entries.items i result }
        ensures left { Left result self.old.entries.items self.new.entries.items }
        ensures order { self.new.order ≡ self.old.order }
    {
        self.entries.swap_remove(i)
    }

    // Whether an entry goes before the best so far, if there is one.
    fn goes_before(&self, e: Entry, best: Option<usize>) -> bool
        requires { IfSome best (λ b. b < length self.now.entries.items) }
        ensures { MatchOption best (result ≡ true) (λ b. result ≡ O.first (O.memory self.now.order) e (slice_index_or self.now.entries.items b none)) }
    {
        best.is_none_or(|b| self.order.goes_first(e, self.entries[b]))
    }

    // The place of the first allowed entry.
    #[tactic(auto, using(crate::specs::Best::chosen))]
    fn best(&self, allowed: &[bool; 64]) -> Option<usize>
        ensures { Chosen (O.first (O.memory self.now.order)) self.now.entries.items (allows allowed.now) result }
    {
        let mut best = None;
        for (i, e) in self.entries.iter().enumerate() {
            if is_allowed(allowed, e.operation) && self.goes_before(*e, best) {
                best = Some(i);
            }
        }
        best
    }
}

impl<O: Order> Room for Kept<O> {
    ghost entries = { λ s. s.entries.items };

    ghost places = { 256 };

    ghost memory = { λ s. O.Order.memory s.order };

    ghost rule = { record { start = O.Order.start; after = O.Order.after; chooses = λ m. First (O.Order.first m) } };

    ghost bounded = { Prim.search rules };

    ghost within = { λ s. s.few };

    ghost distinct = { λ s. s.distinct };

    ghost sound = { λ m l a x o. (o.among, o.may) };

    ghost complete = { λ m l a. first_some (O.Order.first m) (O.Order.total m) (O.Order.transitive m) l a };

    ghost one = { λ m l a x y d p q. one_entry l d x y p.among q.among (O.Order.strict m x y (p.before y q.among q.may) (q.before x p.among p.may)) };

    ghost same = { λ m l k a x same o. record { among = (same x).0 o.among; may = o.may; before = λ y h t. o.before y ((same y).1 h) t } };

    fn new() -> Kept<O> {
        Kept {
            order: O::new(),
            entries: ArrayVec::new(),
        }
    }

    fn put(&mut self, e: Entry) -> Result<(), PutFault> {
        if self.find(e.ticket).is_some() {
            return Err(PutFault::Known);
        }
        self.entries.try_push(e).map_err(|_| PutFault::Full)
    }

    fn take(&mut self, allowed: &[bool; 64]) -> Option<Entry> {
        let e = self.remove(self.best(allowed)?);
        self.order.chosen(e);
        Some(e)
    }

    fn drop_ticket(&mut self, ticket: u32) -> Option<u8> {
        let i = self.find(ticket)?;
        Some(self.remove(i).operation)
    }

    fn count(&self) -> usize {
        self.entries.len()
    }
}
