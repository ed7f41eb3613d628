// The call that a log line asks for.
ghost use Rattle.order_log.specs.Answers.{Asked, KnownOperation};

use crate::answer::Answer;
use crate::fault::LogFault;
use lines::{Order, read_line};
use rooms::waiting::Room;
use run::answer::LetIn;
use run::state::Run;
use tokens::Names;

// The operation that a word names.
fn operation(names: Names, word: &[u8]) -> Result<u8, LogFault>
    ensures named { KnownOperation names.entry.text.now names.entry.records.now word.now result }
{
    let number = names.number(word).ok_or(LogFault::UnknownName)?;
    u8::try_from(number).map_err(|_| LogFault::UnknownName)
}

// Makes the call that a line asks for.
pub(crate) fn ask<R: Room>(
    run: &mut Run<R>,
    names: Names,
    line: &[u8],
    list: &mut [LetIn; 256],
) -> Result<Answer, LogFault>
    ensures asked { Asked R.places R.rule names.entry.text.now names.entry.records.now line.now run.old run.new list.old list.new result }
{
    match read_line(line)? {
        Order::Begin { name, rank } => {
            let operation = operation(names, name)?;
            Ok(Answer::Begun(operation, run.begin(operation, rank)?))
        }
        Order::End { name } => {
            let operation = operation(names, name)?;
            Ok(Answer::Ended(operation, run.end(operation, list)?))
        }
        Order::Withdraw { ticket } => Ok(Answer::Withdrawn(run.withdraw(ticket)?, ticket)),
    }
}
