// An order of entries, which may read what is remembered of earlier choices.
ghost use Rattle.std.specs.Prelude.{◌≡◌, ℕ, Bool, true, ◌⊎◌};
ghost use Rattle.rooms.specs.declared.entry.Entry.{Entry};

use crate::entry::Entry;

pub trait Order: Sized {
    // what is remembered of earlier choices: nothing, if an order says no more
    ghost memory: { Self → ℕ } = { λ _. 0 };

    // what is remembered at first
    ghost start: { ℕ } = { 0 };

    // what is remembered after the choice of an entry
    ghost after: { ℕ → Entry → ℕ } = { λ _ _. 0 };

    // of two entries the first goes before the second, or has its ticket
    ghost first: { ℕ → Entry → Entry → Bool };

    fn new() -> Self
        ensures fresh { memory result ≡ start };

    fn goes_first(&self, x: Entry, y: Entry) -> bool
        ensures says { result ≡ first (memory self.now) x y };

    fn chosen(&mut self, e: Entry)
        ensures remembers { memory self.new ≡ after (memory self.old) e };

    ghost total: { (m : ℕ) (x y : Entry) → (first m x y ≡ true) ⊎ (first m y x ≡ true) };

    ghost transitive: { (m : ℕ) (x y z : Entry) → first m x y ≡ true → first m y z ≡ true → first m x z ≡ true };

    ghost strict: { (m : ℕ) (x y : Entry) → first m x y ≡ true → first m y x ≡ true → x.ticket ≡ y.ticket };
}
