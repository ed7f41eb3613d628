// The order unit: standard input to standard output.
#![tactic(auto)]

use std::io;
use std::io::{Read, Write};
use unit::rule_on;

fn main(rt: HostRuntime) -> io::Result<()> {
    let mut input = Vec::new(rt.alloc());
    // one byte more than an input may have
    let _ = rt.stdin().take(65_537).read_to_end(&mut input)?;
    let output = rule_on(rt.alloc(), &input)?;
    rt.stdout().write_all(&output)
}
