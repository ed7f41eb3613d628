// One table over lent places, for every kind of record.
#![tactic(auto)]

ghost use Rattle.std.specs.Prelude.{◌≤◌, length};

mod ops;

// The lent places by themselves, so that a method can hand them on.
#[derive(Drop)]
pub struct Rows<'a, T> {
    places: &'a mut [T],
}

// The records are what the first `count` places hold.
#[derive(Drop)]
pub struct Table<'a, T> {
    rows: Rows<'a, T>,
    count: usize,
    ghost within: { count ≤ length rows.places.now },
}

// The table has no place left.
#[derive(Clone, Copy)]
pub struct Full;
