// A whole run: from the first byte of a text through a list of calls to the last answer.
ghost use Rattle.std.specs.Prelude.{◌≡◌, ◌-◌, ◌≤◌, min, length, take, drop};
ghost use Rattle.run.specs.Carried.{Carried, CarriedAll};
ghost use Rattle.run.specs.Whole.{tables, ReplaySays, Rests};

use crate::answer::{Closed, LetIn};
use crate::call::{Answer, Call};
use crate::state::Run;
use doors::Occurrence;
use reading::ReadFault;
use reading::text::read;
use rooms::waiting::Room;
use table::Table;
use tokens::{Name, Token};
use translation::translate;

// One call; an end puts those whom it lets in into the front of the list. Answers how many that are.
fn carry<R: Room>(run: &mut Run<R>, call: Call, list: &mut [LetIn]) -> (Answer, usize)
    ensures within { result.1 ≤ length list.old }
    ensures carried { Carried R.places R.rule run.old run.new call (length list.old) result.0 (take result.1 list.new) }
    ensures rest { drop result.1 list.new ≡ drop result.1 list.old }
{
    match call {
        Call::Begin(operation, rank) => (Answer::Begin(run.begin(operation, rank)), 0),
        Call::End(operation) => {
            let answer = run.end(operation, list);
            (Answer::End(answer), answer.unwrap_or(0))
        }
        Call::Withdraw(ticket) => (Answer::Withdraw(run.withdraw(ticket)), 0),
    }
}

// Carries the calls, as many as there are places for answers.
fn carry_all<R: Room>(run: &mut Run<R>, calls: &[Call], answers: &mut [Answer], list: &mut [LetIn])
    ensures carried { CarriedAll R.places R.rule run.old run.new calls.now answers.old answers.new list.old list.new }
{
    let mut used = 0;
    for (i, place) in answers.iter_mut().enumerate() {
        let Some(call) = calls.get(i) else {
            return;
        };
        let (answer, let_in) = carry(run, *call, &mut list[used..]);
        *place = answer;
        used += let_in;
    }
}

// Reads and translates a text, opens a run of it over a room of this kind, carries the calls, as many as there are places for answers, and closes the run.
// The answers stand in the front of `answers`, those whom the ends let in, one end after the other, in the front of `list`.
pub fn replay<R: Room>(
    text: &[u8],
    tokens: &mut Table<Token>,
    names: &mut Table<Name>,
    occurrences: &mut Table<Occurrence>,
    calls: &[Call],
    answers: &mut [Answer],
    list: &mut [LetIn],
) -> Result<Closed<R>, ReadFault>
    ensures says { ReplaySays R.places R.rule R.entries text.now (tables tokens.old names.old occurrences.old) (tables tokens.new names.new occurrences.new) calls.now answers.old answers.new list.old list.new result }
    ensures rests { Rests (tables tokens.old names.old occurrences.old) (tables tokens.new names.new occurrences.new) }
{
    let read = read(text, tokens, names)?;
    let translated = translate(read, text, tokens, names, occurrences)?;
    let mut run = Run::<R>::open(&translated, occurrences);
    carry_all(&mut run, calls, answers, list);
    Ok(run.apart())
}
