// What is printed for a line of a log.
ghost use Rattle.std.specs.Prelude.{◌+◌, ◌*◌, ◌≤◌, length};
ghost use Rattle.std.specs.List.{flat_map};
ghost use Rattle.page.specs.Written.{Written};
ghost use Rattle.order_log.specs.Print.{ticket_line, out_line, begun_line, let_in_line, ended_lines, refusal};
ghost use Rattle.order_log.specs.Answers.{name_of, done_count, let_in_count, done_lines, answer_lines, ReadNames};

use crate::answer::Answer;
use crate::fault::LogFault;
use print::{Word, put_line};
use run::answer::{Begun, LetIn};
use tokens::Names;

// Who prints for a line of the log: the names of the text spell the operations, and the number is the line's.
#[derive(Clone, Copy)]
pub(crate) struct Printer<'a> {
    pub(crate) names: Names<'a>,
    pub(crate) number: usize,
}

// Prints a refusal.
fn put_refusal(part: &mut [u8], number: usize, fault: LogFault) -> usize
    ensures written { Written (refusal number fault) part.old part.new result }
    ensures short { length (refusal number fault) ≤ 74 }
{
    let number = Word::Number(number);
    let refused = Word::Text(b"refused");
    let refusal = Word::Number(usize::from(fault.number()));
    match fault.place() {
        None => put_line(part, number, &[refused, refusal]),
        Some(place) => put_line(
            part,
            number,
            &[refused, refusal, Word::Text(b"at"), Word::Number(place)],
        ),
    }
}

impl<'a> Printer<'a> {
    // Prints an operation with a word and a ticket.
    #[tactic(auto, using(crate::proofs::Fits::name_fits))]
    fn put_ticket(self, part: &mut [u8], operation: u8, word: &'a [u8], ticket: u32) -> usize
        ensures written { Written (ticket_line self.entry.number (name_of self.entry.names operation) word.now ticket) part.old part.new result }
        ensures short { ReadNames self.entry.names.records.now → length (ticket_line self.entry.number (name_of self.entry.names operation) word.now ticket) ≤ 60 + length word.now }
    {
        let name = self.names.spelled(usize::from(operation));
        put_line(
            part,
            Word::Number(self.number),
            &[
                Word::Text(name),
                Word::Text(word),
                Word::Number(ticket as usize),
            ],
        )
    }

    // Prints a begin that was accepted.
    fn put_begun(self, part: &mut [u8], operation: u8, begun: Begun) -> usize
        ensures written { Written (begun_line self.entry.number (name_of self.entry.names operation) begun) part.old part.new result }
        ensures short { ReadNames self.entry.names.records.now → length (begun_line self.entry.number (name_of self.entry.names operation) begun) ≤ 65 }
    {
        match begun {
            Begun::In(ticket) => self.put_ticket(part, operation, b"in", ticket),
            Begun::Waits(ticket) => self.put_ticket(part, operation, b"waits", ticket),
        }
    }

    // Prints those that an end let in, behind each other.
    fn put_all(self, part: &mut [u8], list: &[LetIn]) -> usize
        ensures written { Written (flat_map (let_in_line (name_of self.entry.names) self.entry.number) list.now) part.old part.new result }
        ensures short { ReadNames self.entry.names.records.now → length (flat_map (let_in_line (name_of self.entry.names) self.entry.number) list.now) ≤ 62 * length list.now }
    {
        let mut at = 0;
        for one in list {
            at += self.put_ticket(&mut part[at..], one.operation, b"in", one.ticket);
        }
        at
    }

    // Prints the end itself.
    #[tactic(auto, using(crate::proofs::Fits::name_fits))]
    fn put_out(self, part: &mut [u8], operation: u8) -> usize
        ensures written { Written (out_line self.entry.number (name_of self.entry.names operation)) part.old part.new result }
        ensures short { ReadNames self.entry.names.records.now → length (out_line self.entry.number (name_of self.entry.names operation)) ≤ 42 }
    {
        let name = self.names.spelled(usize::from(operation));
        put_line(
            part,
            Word::Number(self.number),
            &[Word::Text(name), Word::Text(b"out")],
        )
    }

    // Prints an end that was not refused, with those that it let in.
    fn put_ended(self, part: &mut [u8], operation: u8, list: &[LetIn]) -> usize
        ensures written { Written (ended_lines (name_of self.entry.names) self.entry.number operation list.now) part.old part.new result }
        ensures short { ReadNames self.entry.names.records.now → length (ended_lines (name_of self.entry.names) self.entry.number operation list.now) ≤ 42 + 62 * length list.now }
    {
        let at = self.put_out(part, operation);
        at + self.put_all(&mut part[at..], list)
    }

    // Prints an answer that is no refusal; those that it let in stand at the list's front.
    fn put_done(self, part: &mut [u8], list: &[LetIn], done: Answer) -> usize
        requires { (done_count done ≤ length list.now) × (length list.now ≤ 256) }
        ensures written { Written (done_lines (name_of self.entry.names) self.entry.number list.now done) part.old part.new result }
        ensures short { ReadNames self.entry.names.records.now → length (done_lines (name_of self.entry.names) self.entry.number list.now done) ≤ 16384 }
    {
        match done {
            Answer::Begun(operation, begun) => self.put_begun(part, operation, begun),
            Answer::Ended(operation, count) => self.put_ended(part, operation, &list[..count]),
            Answer::Withdrawn(operation, ticket) => {
                self.put_ticket(part, operation, b"gone", ticket)
            }
        }
    }

    // Prints the answer to a line.
    pub(crate) fn put_answer(
        self,
        part: &mut [u8],
        list: &[LetIn],
        answer: Result<Answer, LogFault>,
    ) -> usize
        requires { (let_in_count answer ≤ length list.now) × (length list.now ≤ 256) }
        ensures written { Written (answer_lines (name_of self.entry.names) self.entry.number list.now answer) part.old part.new result }
        ensures short { ReadNames self.entry.names.records.now → length (answer_lines (name_of self.entry.names) self.entry.number list.now answer) ≤ 16384 }
    {
        match answer {
            Ok(done) => self.put_done(part, list, done),
            Err(fault) => put_refusal(part, self.number, fault),
        }
    }
}
