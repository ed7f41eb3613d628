ghost use Rattle.std.specs.Prelude.{◌≡◌, ◌≤◌, length};
ghost use Rattle.std.specs.Char.{is_ascii_digit};
ghost use Rattle.std.specs.List.{prefix_len};
ghost use Rattle.std.specs.Str.Parse.{digits_value};
ghost use Rattle.lines.specs.Lines.{IsName, IsTicket};
ghost use Rattle.lines.specs.Reads.{Longest};

use tokens::{part, word_len};

// The length of the name that the rest begins with, 0 if it begins with none.
#[tactic(auto, using(crate::proofs::Tails::name_run, crate::proofs::Tails::no_name))]
pub fn name_len(rest: &[u8]) -> usize
    ensures longest { Longest IsName rest.now result }
    ensures short { result ≤ 16 }
{
    match rest {
        [b'a'..=b'z', ..] => word_len(part(rest, 0, 16)),
        _ => 0,
    }
}

// How many digits some bytes begin with.
fn digits_len(bytes: &[u8]) -> usize
    ensures value { result ≡ prefix_len is_ascii_digit bytes.now }
    ensures bound { result ≤ length bytes.now }
{
    bytes.iter().take_while(|b| b.is_ascii_digit()).count()
}

// The length of the ticket that the rest begins with, 0 if it begins with none.
#[tactic(auto, using(crate::proofs::Tails::ticket_run, crate::proofs::Tails::no_ticket))]
pub fn ticket_len(rest: &[u8]) -> usize
    ensures longest { Longest IsTicket rest.now result }
    ensures short { result ≤ 7 }
{
    match rest {
        [b'1'..=b'9', ..] => digits_len(part(rest, 0, 7)),
        _ => 0,
    }
}

// The number that the digits of a ticket write.
#[tactic(auto, using(crate::proofs::Tails::ticket_more, crate::proofs::Tails::ticket_small))]
pub fn number(digits: &[u8]) -> u32
    requires { IsTicket digits.now }
    ensures value { result ≡ digits_value 10 digits.now }
    ensures small { result ≤ 9999999 }
{
    let mut number = 0;
    for digit in digits {
        number = number * 10 + u32::from(*digit - b'0');
    }
    number
}
