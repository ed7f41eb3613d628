// The doors of a text and how they stand: the memory by which a run knows what fits.
#![tactic(auto)]

mod calls;
mod keeping;
mod passing;

use arrayvec::ArrayVec;

// A semaphore, with a counter or without one.
#[derive(Clone, Copy, Default)]
pub struct Door {
    pub semaphore: u8,
    pub counter: Option<u8>,
}

// A name in the text: the number of its path, its operation and its two doors.
#[derive(Clone, Copy, Default)]
pub struct Occurrence {
    pub path: u8,
    pub operation: u8,
    pub left: Door,
    pub right: Door,
}

// What each semaphore and each counter stands at.
#[derive(Drop)]
struct Levels {
    semaphores: [u32; 256],
    counters: [u32; 256],
}

// The occurrences by operation: a row of up to 32 for each of 64 operations.
#[derive(Drop)]
struct Rows {
    by_operation: [ArrayVec<Occurrence, 32>; 64],
}

// The doors of a text and how they stand.
#[derive(Drop)]
pub struct Doors {
    rows: Rows,
    levels: Levels,
}
