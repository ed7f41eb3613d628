// A waiting room: a set of entries, no ticket twice, and a rule of choice.
ghost use Rattle.std.specs.Prelude.{◌≡◌, ℕ, ◌≤◌, Bool, true, ◌↔◌, List, [], length, OnErr, MatchOption, IfNone};
ghost use Rattle.rooms.specs.declared.entry.Entry.{Entry};
ghost use Rattle.rooms.specs.Entries.{In, NoTwice, PutSays, TakeSays, DropSays, allows};
ghost use Rattle.rooms.specs.Rule.{Rule};

use crate::entry::{Entry, PutFault};

pub trait Room: Sized {
    // the set of entries, in any order
    ghost entries: { Self → List Entry };

    // the number of places
    ghost places: { ℕ };

    // what is remembered of earlier choices
    ghost memory: { Self → ℕ };

    // the rule of choice
    ghost rule: { Rule };

    fn new() -> Self
        ensures empty { entries result ≡ [] }
        ensures fresh { memory result ≡ rule.start };

    fn put(&mut self, e: Entry) -> Result<(), PutFault>
        ensures says { PutSays places e (entries self.old) (entries self.new) result }
        ensures remembers { memory self.new ≡ memory self.old }
        ensures refused { OnErr result (self.new ≡ self.old) };

    fn take(&mut self, allowed: &[bool; 64]) -> Option<Entry>
        ensures says { TakeSays (allows allowed.now) (rule.chooses (memory self.old)) (entries self.old) (entries self.new) result }
        ensures remembers { MatchOption result (memory self.new ≡ memory self.old) (λ e. memory self.new ≡ rule.after (memory self.old) e) }
        ensures none { IfNone result (self.new ≡ self.old) };

    fn drop_ticket(&mut self, ticket: u32) -> Option<u8>
        ensures says { DropSays ticket (entries self.old) (entries self.new) result }
        ensures remembers { memory self.new ≡ memory self.old }
        ensures absent { IfNone result (self.new ≡ self.old) };

    fn count(&self) -> usize
        ensures counts { result ≡ length (entries self.now) };

    ghost bounded: { (1 ≤ places) × (places ≤ 256) };

    ghost within: { (s : Self) → length (entries s) ≤ places };

    ghost distinct: { (s : Self) → NoTwice (entries s) };

    // the entry chosen is in the set and its operation allowed
    ghost sound: { (m : ℕ) (l : List Entry) (a : ℕ → Bool) (x : Entry) → rule.chooses m l a x → In x l × (a x.operation ≡ true) };

    // an entry is chosen whenever the operation of one is allowed
    ghost complete: { (m : ℕ) (l : List Entry) (a : ℕ → Bool) (x : Entry) → In x l → a x.operation ≡ true → (y : Entry) × rule.chooses m l a y };

    // one entry is chosen
    ghost one: { (m : ℕ) (l : List Entry) (a : ℕ → Bool) (x y : Entry) → NoTwice l → rule.chooses m l a x → rule.chooses m l a y → x ≡ y };

    // the order of the list is not read
    ghost same: { (m : ℕ) (l k : List Entry) (a : ℕ → Bool) (x : Entry) → ((u : Entry) → (In u l ↔ In u k)) → rule.chooses m l a x → rule.chooses m k a x };
}
