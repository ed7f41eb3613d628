// The translation of an accepted text into the occurrences of its names, each with its two doors.
#![tactic(auto)]

mod counts;
mod refusal;
mod steps;
mod text;
mod walk;

use reading::Read;
pub use walk::translate;

// A text that was translated: how many different names, paths, semaphores and counters it has.
#[derive(Clone, Copy)]
pub struct Translated {
    names: usize,
    paths: usize,
    semaphores: usize,
    counters: usize,
}

// A table has fewer places than stated; the reading comes back.
#[derive(Drop)]
pub struct TooFewPlaces {
    pub read: Read,
}
