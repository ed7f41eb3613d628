ghost use Rattle.std.specs.Prelude.{◌≡◌, ◌<◌, ◌≤◌, length, MatchOption, OnSome, slice_index_or};
ghost use Rattle.tokens.specs.Tokens.{spelling, number_of};
ghost use Rattle.translation.specs.Rows.{kinds, kinds_from, front, Past as PastIt};
ghost use Rattle.translation.specs.Trees.{scan};

use super::steps::{Place, after};
use tokens::{Kind, Names, Token, part};

// A text by its tokens and its names.
#[derive(Clone, Copy)]
pub struct Source<'a> {
    pub tokens: &'a [Token],
    pub names: Names<'a>,
}

// The semaphore of the first `;` of a row outside brackets, if it comes before what closes the row; `next` is the next free number.
fn semaphore_behind(tokens: &[Token], next: u16) -> Option<u16>
    ensures found { result ≡ scan 0 next (kinds tokens.now) }
{
    let mut semaphore = next;
    let mut depth = 0usize;
    for token in tokens {
        match token.kind {
            Kind::RoundOpen | Kind::BraceOpen => depth += 1,
            Kind::RoundClose | Kind::BraceClose => depth = depth.checked_sub(1)?,
            Kind::Semicolon if depth == 0 => return Some(semaphore),
            Kind::Semicolon => semaphore = after(semaphore),
            Kind::End => return None,
            Kind::Comma | Kind::Path | Kind::Name => {}
        }
    }
    None
}

impl<'a> Source<'a> {
    // The token at a place; behind the last there is none.
    pub fn token_at(&self, at: Place) -> Option<Token>
        ensures token { MatchOption result (length self.now.tokens.now ≤ at.token) (λ t. (at.token < length self.now.tokens.now) × (t ≡ slice_index_or self.now.tokens.now at.token t)) }
    {
        self.tokens.get(at.token).copied()
    }

    // The kind of the token at a place.
    pub fn kind_at(&self, at: Place) -> Option<Kind>
        ensures kind { result ≡ front (kinds_from self.now.tokens.now at.token) }
        ensures inside { OnSome result (at.token < length self.now.tokens.now) }
    {
        self.token_at(at).map(|token| token.kind)
    }

    // The place behind the next token; behind the last it stays.
    pub fn past(&self, at: Place) -> Place
        ensures past { PastIt self.now.tokens.now at result }
    {
        if at.token < self.tokens.len() {
            Place {
                token: at.token + 1,
                ..at
            }
        } else {
            at
        }
    }

    // The number of a name.
    pub fn number(&self, name: Token) -> u8
        ensures number { number_of self.now.names.text.now self.now.names.records.now (spelling self.now.names.text.now name) ≤ 255 → result ≡ number_of self.now.names.text.now self.now.names.records.now (spelling self.now.names.text.now name) }
    {
        let names = self.names;
        let number = names.number(part(names.text, name.place, name.len));
        u8::try_from(number.unwrap_or(names.records.len())).unwrap_or(u8::MAX)
    }

    // The semaphore of the `;` behind the selection that starts at a place; none where the selection is the last of its sequence.
    pub fn semaphore_behind(&self, at: Place) -> Option<u16>
        ensures found { result ≡ scan 0 at.semaphore (kinds_from self.now.tokens.now at.token) }
        ensures inside { OnSome result (at.token < length self.now.tokens.now) }
    {
        semaphore_behind(self.tokens.get(at.token..)?, at.semaphore)
    }
}
