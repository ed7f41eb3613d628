ghost use Rattle.std.specs.Prelude.{◌≤◌, ◌∷◌, ◌++◌, length, map, codes, decimal};
ghost use Rattle.page.specs.Written.{Written};
ghost use Rattle.doors.specs.Told.{door_of};
ghost use Rattle.print.specs.Words.{line_of, door_bytes, word_bytes, most, line_most};

use doors::Door;
use page::{put, put_number};

// A word of a line.
#[derive(Clone, Copy)]
pub enum Word<'a> {
    Text(&'a [u8]),
    Number(usize),
    Door(Door),
}

// Writes a number below 256.
#[tactic(auto, using(crate::proofs::Fits::three))]
fn put_byte(part: &mut [u8], n: u8) -> usize
    ensures written { Written (decimal n) part.old part.new result }
    ensures short { length (decimal n) ≤ 3 }
{
    put_number(part, usize::from(n))
}

// Writes a semaphore with its counter.
fn put_counted(part: &mut [u8], semaphore: u8, counter: u8) -> usize
    ensures written { Written (decimal semaphore ++ codes "/" ++ decimal counter) part.old part.new result }
    ensures short { length (decimal semaphore ++ codes "/" ++ decimal counter) ≤ 7 }
{
    let slash = put_byte(part, semaphore);
    let at = slash + put(&mut part[slash..], b"/");
    at + put_byte(&mut part[at..], counter)
}

// Writes a door: its semaphore, and behind `/` its counter if it has one.
fn put_door(part: &mut [u8], door: Door) -> usize
    ensures written { Written (door_bytes (door_of door)) part.old part.new result }
    ensures short { length (door_bytes (door_of door)) ≤ 7 }
{
    match door.counter {
        None => put_byte(part, door.semaphore),
        Some(counter) => put_counted(part, door.semaphore, counter),
    }
}

impl Word<'_> {
    // Writes the word.
    fn put(self, part: &mut [u8]) -> usize
        ensures written { Written (word_bytes self.entry) part.old part.new result }
        ensures short { length (word_bytes self.entry) ≤ most self.entry }
    {
        match self {
            Word::Text(bytes) => put(part, bytes),
            Word::Number(n) => put_number(part, n),
            Word::Door(door) => put_door(part, door),
        }
    }

    // Writes a space and the word.
    #[tactic(auto, using(page::proofs::Fill::written_more))]
    fn put_behind(self, part: &mut [u8]) -> usize
        ensures written { Written (32 ∷ word_bytes self.entry) part.old part.new result }
        ensures short { length (word_bytes self.entry) ≤ most self.entry }
    {
        let at = put(part, b" ");
        at + self.put(&mut part[at..])
    }
}

// Writes a line of words, with a space between them and byte 10 behind them.
pub fn put_line(part: &mut [u8], first: Word, others: &[Word]) -> usize
    ensures written { Written (line_of (word_bytes first.entry) (map word_bytes others.now)) part.old part.new result }
    ensures short { length (line_of (word_bytes first.entry) (map word_bytes others.now)) ≤ line_most first.entry others.now }
{
    let mut at = first.put(part);
    for word in others {
        at += word.put_behind(&mut part[at..]);
    }
    at + put(&mut part[at..], b"\n")
}
