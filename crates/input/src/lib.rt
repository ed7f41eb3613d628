// The program's input: text and log, and the lines of the log.
#![tactic(auto)]

mod cut;
mod laws;
mod reader;

pub use cut::{check_input, split};
pub use laws::{one_cut, one_list};

// The input has more than 65,536 bytes.
#[derive(Clone, Copy)]
pub struct TooLong;

// The text of an input, and its log.
#[derive(Clone, Copy)]
pub struct Parts<'a> {
    pub text: &'a [u8],
    pub log: &'a [u8],
}

// An iterator over the lines of some bytes, with the bytes that are still to read.
#[derive(Drop)]
pub struct LineReader<'a> {
    rest: &'a [u8],
}
