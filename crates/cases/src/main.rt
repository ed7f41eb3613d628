// Runs the unit on the cases of standard input, one to a line, and prints what it wrote for each.
// A case is a row of pieces with `|` between them; `COUNT*PIECE` is a piece written COUNT times.
// In a piece `\n`, `\t`, `\r` and `\xHH` stand for a byte.
#![tactic(auto)]

ghost use Rattle.std.specs.Prelude.{◌<◌, length};
ghost use Rattle.std.specs.Iterator.{at_most};

use std::alloc::{AllocError, Global};
use std::io;
use std::io::{Read, Write};
use unit::rule_on;

// A longer output is told by its length, a checksum and its last bytes.
const SHOWN: usize = 1_500;

// The value of a digit to the base 16, 0 for another byte.
fn hex(b: u8) -> u8
    ensures { result < 16 }
{
    match b {
        b'0'..=b'9' => b - b'0',
        b'a'..=b'f' => b - b'a' + 10,
        _ => 0,
    }
}

// The bytes that a piece stands for.
#[derive(Drop)]
struct Bytes<'a>(&'a [u8]);

impl Iterator for Bytes<'_> {
    type Item = u8;

    ghost remaining = { λ s. at_most (length s.0.now) };

    fn next(&mut self) -> Option<u8> {
        let (b, rest) = match self.0 {
            [b'\\', b'n', rest @ ..] => (b'\n', rest),
            [b'\\', b't', rest @ ..] => (b'\t', rest),
            [b'\\', b'r', rest @ ..] => (b'\r', rest),
            [b'\\', b'x', high, low, rest @ ..] => (hex(*high) * 16 + hex(*low), rest),
            [first, rest @ ..] => (*first, rest),
            [] => return None,
        };
        self.0 = rest;
        Some(b)
    }
}

// How often a piece is written, and what is.
fn repeated(piece: &str) -> (u32, &str) {
    if let Some((count, part)) = piece.split_once('*')
        && let Ok(count) = count.parse()
    {
        return (count, part);
    }
    (1, piece)
}

// The input that a case stands for.
fn input_of(heap: Global, case: &str) -> Result<Vec<u8>, AllocError> {
    let mut input = Vec::new(heap);
    for piece in case.split('|') {
        let (count, part) = repeated(piece);
        for _ in 0..count {
            input.extend(Bytes(part.as_bytes()))?;
        }
    }
    Ok(input)
}

// A sum that depends on every byte and its place.
fn checksum(bytes: &[u8]) -> u32 {
    bytes.iter().fold(
        0u32,
        |sum, b| sum.wrapping_mul(31).wrapping_add(u32::from(*b)),
    )
}

fn show(rt: &HostRuntime, output: &[u8]) -> io::Result<()> {
    if output.len() <= SHOWN {
        return rt.stdout().write_all(output);
    }
    let len = output.len();
    let sum = checksum(output);
    println!(rt; "({len} bytes, checksum {sum}, the last 40:)")?;
    rt.stdout().write_all(&output[len - 40..])
}

fn main(rt: HostRuntime) -> io::Result<()> {
    let mut cases = String::new(rt.alloc());
    let _ = rt.stdin().read_to_string(&mut cases)?;
    for case in cases.lines() {
        println!(rt; "== {case}")?;
        let input = input_of(rt.alloc(), case)?;
        let output = rule_on(rt.alloc(), &input)?;
        show(&rt, &output)?;
    }
    Ok(())
}
