ghost use Rattle.std.specs.Prelude.{◌≡◌, length, drop};
ghost use Rattle.tokens.specs.Reader.{bytes, next, Found, Moved, Measured};
ghost use Rattle.tokens.specs.Tokens.{spelling};

use super::lookup::part;
use super::scan::follow;
use super::{BytesFault, Token, TokenReader};

// The most bytes that a text may have.
const LONGEST: usize = 16_384;

// Whether a text is short enough to be read.
pub fn check_length(text: &[u8]) -> Result<(), BytesFault>
    ensures judged { Measured (length text.now) result }
{
    if text.len() > LONGEST {
        return Err(BytesFault::TooLong);
    }
    Ok(())
}

impl<'a> TokenReader<'a> {
    // A reader at the text's first byte.
    pub fn new(text: &'a [u8]) -> TokenReader<'a>
        ensures text { bytes result ≡ text.now }
        ensures place { result.place ≡ 0 }
    {
        TokenReader { text, place: 0 }
    }

    // The next token, or none at the text's end; a token moves the place on.
    pub fn next_token(&mut self) -> Result<Option<Token>, BytesFault>
        ensures found { Found (next self.old.place (drop self.old.place (bytes self.old))) result }
        ensures text { bytes self.new ≡ bytes self.old }
        ensures moved { Moved (length (bytes self.old)) self.old.place self.new.place result }
    {
        let found = follow(self.text, self.place)?;
        if let Some(token) = found {
            self.place = token.place + token.len;
        }
        Ok(found)
    }

    // The part of the text that a token is.
    pub fn shown(&self, token: Token) -> &'a [u8]
        ensures shown { result.now ≡ spelling (bytes self.now) token }
    {
        part(self.text, token.place, token.len)
    }
}
