ghost use Rattle.std.specs.Prelude.{◌≡◌, ◌≢◌, ◌+◌, ◌<◌, ◌≤◌, ◌∷◌, ◌++◌, length, codes, MatchResult, slice_index};
ghost use Rattle.lines.specs.Reads.{Judged, Ranked, Small};

use super::scan::{name_len, number, ticket_len};
use super::{LineFault, Order};

// The fault at a place of what stands behind the letter and the space.
fn in_line(place: usize) -> LineFault
    requires { place ≤ 18 }
    ensures place { result.place ≡ 2 + place }
{
    LineFault { place: 2 + place }
}

// The rank at the end of a begin: a space, one digit, and nothing else.
#[tactic(auto, using(crate::proofs::Tails::rank_none, crate::proofs::Tails::rank_space, crate::proofs::Tails::rank_over))]
fn read_rank(tail: &[u8]) -> Result<u8, LineFault>
    ensures rank { Ranked tail.now result }
{
    match tail {
        [b' ', digit @ b'0'..=b'9'] => Ok(*digit - b'0'),
        [b' ', b'0'..=b'9', ..] => Err(LineFault { place: 2 }),
        [b' ', ..] => Err(LineFault { place: 1 }),
        _ => Err(LineFault { place: 0 }),
    }
}

// The line that is `b `, then the rest.
#[tactic(auto, using(crate::proofs::Lawfuls::begin_nameless, crate::proofs::Lawfuls::begin_faulty))]
fn read_begin(rest: &[u8]) -> Result<Order<'_>, LineFault>
    ensures judged { Judged (codes "b " ++ rest.now) result }
    ensures small { Small result }
{
    let len = name_len(rest);
    if len == 0 {
        return Err(in_line(0));
    }
    let (name, tail) = rest.split_at(len);
    let rank = read_rank(tail).map_err(|fault| in_line(len + fault.place))?;
    Ok(Order::Begin { name, rank })
}

// The rest, if the row of that length which it begins with is all of it.
fn whole(rest: &[u8], len: usize) -> Result<&[u8], LineFault>
    requires { len ≤ 16 }
    ensures whole { MatchResult result (λ row. (row.now ≡ rest.now) × (0 < len) × (length rest.now ≡ len)) (λ fault. (fault.place ≡ 2 + len) × (len ≡ length rest.now → len ≡ 0)) }
{
    if len == 0 || len != rest.len() {
        return Err(in_line(len));
    }
    Ok(rest)
}

// The line that is `e `, then the rest.
#[tactic(auto, using(crate::proofs::Lawfuls::end_faulty))]
fn read_end(rest: &[u8]) -> Result<Order<'_>, LineFault>
    ensures judged { Judged (codes "e " ++ rest.now) result }
    ensures small { Small result }
{
    let name = whole(rest, name_len(rest))?;
    Ok(Order::End { name })
}

// The line that is `w `, then the rest.
#[tactic(auto, using(crate::proofs::Lawfuls::withdraw_faulty, crate::proofs::Lawfuls::withdraw_lawful))]
fn read_withdraw(rest: &[u8]) -> Result<Order<'_>, LineFault>
    ensures judged { Judged (codes "w " ++ rest.now) result }
    ensures small { Small result }
{
    let digits = whole(rest, ticket_len(rest))?;
    Ok(Order::Withdraw {
        ticket: number(digits),
    })
}

// What stands behind the letter and the space behind it.
fn behind_space(tail: &[u8]) -> Result<&[u8], LineFault>
    ensures spaced { MatchResult result (λ rest. tail.now ≡ 32 ∷ rest.now) (λ fault. (fault.place ≡ 1) × (0 < length tail.now → slice_index tail.now 0 ≢ 32)) }
{
    match tail {
        [b' ', rest @ ..] => Ok(rest),
        _ => Err(LineFault { place: 1 }),
    }
}

// The order that a line gives, or where the line goes wrong.
#[tactic(auto, using(crate::proofs::Lawfuls::no_letter, crate::proofs::Lawfuls::no_space))]
pub fn read_line(line: &[u8]) -> Result<Order<'_>, LineFault>
    ensures judged { Judged line.now result }
    ensures small { Small result }
{
    let [letter, tail @ ..] = line else {
        return Err(LineFault { place: 0 });
    };
    match *letter as char {
        'b' => read_begin(behind_space(tail)?),
        'e' => read_end(behind_space(tail)?),
        'w' => read_withdraw(behind_space(tail)?),
        _ => Err(LineFault { place: 0 }),
    }
}
