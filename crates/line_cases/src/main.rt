// Runs the unit on every byte but 10 at six places of a log line, 32 bytes to an input, and prints what it wrote.
#![tactic(auto)]

use std::alloc::{AllocError, Global};
use std::io;
use std::io::Write;
use unit::rule_on;

// A text of one name, and a line for each of 32 bytes: the byte between a front and a back.
fn input_of(heap: Global, front: &str, back: &str, first: u8) -> Result<Vec<u8>, AllocError> {
    let mut input = Vec::from_slice(heap, b"path a end\n%\n")?;
    for b in (first..=first.saturating_add(31)).filter(|b| *b != b'\n') {
        input.extend_from_slice(front.as_bytes())?;
        input.push(b)?;
        input.extend_from_slice(back.as_bytes())?;
        input.push(b'\n')?;
    }
    Ok(input)
}

// Every byte at one place of a line.
fn show(rt: &HostRuntime, front: &str, back: &str) -> io::Result<()> {
    for first in (0..=u8::MAX).step_by(32) {
        println!(rt; "== {front}?{back} from {first}")?;
        let input = input_of(rt.alloc(), front, back, first)?;
        let output = rule_on(rt.alloc(), &input)?;
        rt.stdout().write_all(&output)?;
    }
    Ok(())
}

fn main(rt: HostRuntime) -> io::Result<()> {
    let places = [
        ("", ""),
        ("b", ""),
        ("e a", ""),
        ("b a", "1"),
        ("b a ", ""),
        ("w 1", ""),
    ];
    for (front, back) in places {
        show(&rt, front, back)?;
    }
    Ok(())
}
