ghost use Rattle.std.specs.Prelude.{◌≡◌, ℕ, ◌<◌, ◌≤◌, List, ◌++◌, length, Decides, MatchResult, codes};
ghost use Rattle.input.specs.Input.{Cut};

use super::{LineReader, Parts, TooLong};

// The most bytes that an input may have.
const LONGEST: usize = 65_536;

// Whether an input is short enough.
pub fn check_input(input: &[u8]) -> Result<(), TooLong>
    ensures judged { MatchResult result (λ _. length input.now ≤ 65536) (λ _. 65536 < length input.now) }
{
    if input.len() > LONGEST {
        return Err(TooLong);
    }
    Ok(())
}

// Whether a line is just `%`.
fn is_mark(line: &[u8]) -> bool
    ensures mark { Decides result (line.now ≡ codes "%") }
{
    matches!(line, b"%")
}

// The text, and the log behind the first line that is just `%`.
pub fn split(input: &[u8]) -> Parts<'_>
    ensures cut { Cut input.now result.text.now result.log.now }
    ensures order { (mark : List ℕ) × (input.now ≡ result.text.now ++ (mark ++ result.log.now)) }
{
    let mut lines = LineReader::new(input);
    let mut text_end = 0;
    while let Some(line) = lines.next() {
        if is_mark(line) {
            return Parts {
                text: &input[..text_end],
                log: lines.rest,
            };
        }
        text_end = input.len() - lines.rest.len();
    }
    Parts {
        text: input,
        log: lines.rest,
    }
}
