ghost use Rattle.std.specs.Prelude.{◌≡◌, ◌==◌, [], MatchOption};
ghost use Rattle.std.specs.List.{position};
ghost use Rattle.input.specs.Input.{FirstLine};
ghost use Rattle.input.specs.Told.{unread};

use super::LineReader;

// Where the first line ends, if a byte 10 ends it.
fn line_end(bytes: &[u8]) -> Option<usize>
    ensures end { result ≡ position (λ b. b == 10) bytes.now }
{
    bytes.iter().position(|b| *b == b'\n')
}

// The first line and what follows it, none where there are no bytes.
#[tactic(auto, using(crate::proofs::Firsts::line_ended, crate::proofs::Firsts::last_line))]
fn first_line(bytes: &[u8]) -> Option<(&[u8], &[u8])>
    ensures line { MatchOption result (bytes.now ≡ []) (λ cut. FirstLine bytes.now cut.0.now cut.1.now) }
{
    if bytes.is_empty() {
        return None;
    }
    match line_end(bytes) {
        Some(end) => Some((&bytes[..end], &bytes[end + 1..])),
        None => Some((bytes, &[])),
    }
}

impl<'a> LineReader<'a> {
    // A reader before the first line.
    pub fn new(bytes: &'a [u8]) -> LineReader<'a>
        ensures bytes { unread result ≡ bytes.now }
    {
        LineReader { rest: bytes }
    }
}

impl<'a> Iterator for LineReader<'a> {
    ghost use Rattle.std.specs.Iterator.{item_count};
    ghost use Rattle.input.specs.Told.{unread, GivesLine};

    type Item = &'a [u8];

    ghost next_gives = { GivesLine };

    // Each line takes a byte at least.
    ghost remaining = { item_count unread };

    // The next line, or none at the end.
    fn next(&mut self) -> Option<&'a [u8]> {
        let (line, rest) = first_line(self.rest)?;
        self.rest = rest;
        Some(line)
    }
}
