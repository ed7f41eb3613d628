ghost use Rattle.std.specs.Prelude.{◌≡◌, ◌<◌, length, MatchOption};
ghost use Rattle.tokens.specs.Tokens.{spelled, number_of, name_bytes};

use super::{Name, Names, Token};

// The part of a text of that length at a place, as far as the text reaches.
pub fn part(text: &[u8], place: usize, len: usize) -> &[u8]
    ensures part { result.now ≡ spelled text.now place len }
{
    let rest = &text[place.min(text.len())..];
    &rest[..len.min(rest.len())]
}

impl From<Token> for Name {
    ghost from_gives = { λ t n. (n.place ≡ t.place) × (n.len ≡ t.len) };

    // The name that a token is, where the token stands.
    fn from(token: Token) -> Name {
        Name {
            place: token.place,
            len: token.len,
        }
    }
}

impl<'a> Names<'a> {
    // The number of the first name that is spelled as a word, if one is.
    pub fn number(self, word: &[u8]) -> Option<usize>
        ensures number { MatchOption result (number_of self.entry.text.now self.entry.records.now word.now ≡ length self.entry.records.now) (λ n. (n < length self.entry.records.now) × (n ≡ number_of self.entry.text.now self.entry.records.now word.now)) }
    {
        self.records
            .iter()
            .position(|name| part(self.text, name.place, name.len) == word)
    }

    // The name with a number, as it is spelled where it stands first; empty where there is none.
    pub fn spelled(self, number: usize) -> &'a [u8]
        ensures spelled { result.now ≡ name_bytes self.entry.text.now self.entry.records.now number }
    {
        self.records
            .get(number)
            .map_or(&[], |name| part(self.text, name.place, name.len))
    }
}
