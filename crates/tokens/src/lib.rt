// The tokens of a text, read one by one, and the look-up of a name.
#![tactic(auto)]

ghost use Rattle.std.specs.Prelude.{◌≤◌, length};

mod lookup;
mod reader;
mod scan;

pub use lookup::part;
pub use reader::check_length;
pub use scan::word_len;

// What a token is.
#[derive(Clone, Copy, PartialEq, Default)]
pub enum Kind {
    Semicolon,
    Comma,
    RoundOpen,
    RoundClose,
    BraceOpen,
    BraceClose,
    Path,
    #[default]
    End,
    Name,
}

// A token: its kind, the place of its first byte in the text, and its length.
#[derive(Clone, Copy, Default)]
pub struct Token {
    pub kind: Kind,
    pub place: usize,
    pub len: usize,
}

// Where a name stands first in the text.
#[derive(Clone, Copy, Default)]
pub struct Name {
    pub place: usize,
    pub len: usize,
}

// The names of a text: the text, and where each of its names stands first.
#[derive(Clone, Copy)]
pub struct Names<'a> {
    pub text: &'a [u8],
    pub records: &'a [Name],
}

// Why the bytes have no next token.
#[derive(Clone, Copy)]
pub enum BytesFault {
    // the text has more than 16,384 bytes
    TooLong,
    // the byte at this place starts no token
    NoToken(usize),
    // the name at this place has more than 16 bytes
    LongName(usize),
}

// The text, and the place from which the next token is read.
#[derive(Drop)]
pub struct TokenReader<'a> {
    text: &'a [u8],
    place: usize,
    ghost within: { place ≤ length text.now },
}
