ghost use Rattle.std.specs.Prelude.{◌≡◌, ◌≢◌, ◌+◌, ◌<◌, ◌≤◌, Some, IfOk, IfSome, length, drop, MatchOption};
ghost use Rattle.std.specs.List.{prefix_len};
ghost use Rattle.std.specs.Result.{result_map_both};
ghost use Rattle.tokens.specs.Tokens.{byte, sign, in_gap, in_name, word_kind};
ghost use Rattle.tokens.specs.Reader.{next, next_word, Found, Inside, Solid};

use super::{BytesFault, Kind, Token};

// Whether a byte is a blank.
fn is_blank(b: u8) -> bool
    ensures blank { result ≡ in_gap b }
{
    matches!(b as char, ' ' | '\t' | '\n' | '\r')
}

// Whether a name may go on with a byte.
fn is_name_byte(b: u8) -> bool
    ensures name { result ≡ in_name b }
{
    matches!(b as char, 'a'..='z' | '0'..='9')
}

// The kind of the token that a sign is, if the byte is one.
fn sign(b: u8) -> Option<Kind>
    ensures sign { MatchOption result ((k : _) → byte b ≢ sign k) (λ k. byte b ≡ sign k) }
{
    match b as char {
        ';' => Some(Kind::Semicolon),
        ',' => Some(Kind::Comma),
        '(' => Some(Kind::RoundOpen),
        ')' => Some(Kind::RoundClose),
        '{' => Some(Kind::BraceOpen),
        '}' => Some(Kind::BraceClose),
        _ => None,
    }
}

// How many blanks the rest begins with.
fn blanks_len(rest: &[u8]) -> usize
    ensures value { result ≡ prefix_len in_gap rest.now }
    ensures bound { result ≤ length rest.now }
{
    rest.iter().take_while(|b| is_blank(**b)).count()
}

// How many letters and digits some bytes begin with.
pub fn word_len(bytes: &[u8]) -> usize
    ensures value { result ≡ prefix_len in_name bytes.now }
    ensures bound { result ≤ length bytes.now }
{
    bytes.iter().take_while(|b| is_name_byte(**b)).count()
}

// The kind of a row of letters and digits: one of the two words, or a name.
#[tactic(auto, using(crate::proofs::Words::no_text))]
fn word_kind(word: &[u8]) -> Kind
    ensures kind { result ≡ word_kind word.now }
{
    match std::str::from_utf8(word) {
        Ok("path") => Kind::Path,
        Ok("end") => Kind::End,
        _ => Kind::Name,
    }
}

// The word that the rest begins with; the rest stands at `at` of the text.
fn scan_word(rest: &[u8], at: usize) -> Result<Token, BytesFault>
    ensures found { Found (next_word at rest.now) (result_map_both Some (λ f. f) result) }
    ensures bound { 0 < prefix_len in_name rest.now → Inside at (length rest.now) (result_map_both Some (λ f. f) result) }
{
    let len = word_len(rest);
    if len > 16 {
        return Err(BytesFault::LongName(at));
    }
    Ok(Token {
        kind: word_kind(&rest[..len]),
        place: at,
        len,
    })
}

// The token that the rest begins with, which is no blank; the rest stands at `at` of the text.
fn scan_token(rest: &[u8], at: usize) -> Result<Option<Token>, BytesFault>
    requires { Solid rest.now }
    ensures found { Found (next at rest.now) result }
    ensures bound { Inside at (length rest.now) result }
{
    match rest {
        [] => Ok(None),
        [b'a'..=b'z', ..] => Ok(Some(scan_word(rest, at)?)),
        [b, ..] => {
            let kind = sign(*b).ok_or(BytesFault::NoToken(at))?;
            Ok(Some(Token {
                kind,
                place: at,
                len: 1,
            }))
        }
    }
}

// The token that comes next from a place on.
#[tactic(auto, using(crate::proofs::Blanks::solid_behind, crate::proofs::Blanks::next_behind))]
pub(crate) fn follow(text: &[u8], place: usize) -> Result<Option<Token>, BytesFault>
    requires { place ≤ length text.now }
    ensures found { Found (next place (drop place text.now)) result }
    ensures behind { IfOk result (λ o. IfSome o (λ t. (place < t.place + t.len) × (t.place + t.len ≤ length text.now))) }
{
    let at = place + blanks_len(&text[place..]);
    scan_token(&text[at..], at)
}
