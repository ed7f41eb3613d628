// The lines of a log: what is lawful, what it means, and where a line goes wrong.
#![tactic(auto)]

mod laws;
mod read;
mod scan;

pub use laws::{one_meaning, one_verdict};
pub use read::read_line;

// What a line asks for; a name is the part of the line that it is.
#[derive(Clone, Copy)]
pub enum Order<'a> {
    Begin { name: &'a [u8], rank: u8 },
    End { name: &'a [u8] },
    Withdraw { ticket: u32 },
}

// A line without lawful form: the place of the first byte with which it can no longer get one, or the length of a line that only stops short.
#[derive(Clone, Copy)]
pub struct LineFault {
    pub place: usize,
}
