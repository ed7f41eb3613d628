// Replays two lists of calls with the room by rank and with the room by age, and prints each answer.
#![tactic(auto)]

use doors::Occurrence;
use rooms::waiting::Room;
use rooms::{AgeRoom, RankRoom};
use run::answer::{Begun, LetIn};
use run::call::{Answer, Call};
use run::replay::replay;
use std::io;
use table::Table;
use tokens::{Name, Token};

fn show(rt: &HostRuntime, answer: Answer) -> io::Result<()> {
    match answer {
        Answer::Begin(Ok(Begun::In(ticket))) => println!(rt; "in {ticket}"),
        Answer::Begin(Ok(Begun::Waits(ticket))) => println!(rt; "waits {ticket}"),
        Answer::End(Ok(count)) => println!(rt; "out, {count} let in"),
        Answer::Withdraw(Ok(operation)) => println!(rt; "gone, operation {operation}"),
        Answer::Begin(Err(fault)) | Answer::End(Err(fault)) | Answer::Withdraw(Err(fault)) => {
            println!(rt; "refused {}", fault.number())
        }
    }
}

fn replayed<R: Room + Drop>(rt: &HostRuntime, text: &[u8], calls: &[Call; 10]) -> io::Result<()> {
    let mut tokens = [Token::default(); 1_088];
    let mut names = [Name::default(); 64];
    let mut occurrences = [Occurrence::default(); 256];
    let mut tokens = Table::new(&mut tokens);
    let mut names = Table::new(&mut names);
    let mut occurrences = Table::new(&mut occurrences);
    let mut answers = [Answer::End(Ok(0)); 10];
    let mut list = [LetIn::default(); 256];
    match replay::<R>(
        text,
        &mut tokens,
        &mut names,
        &mut occurrences,
        calls,
        &mut answers,
        &mut list,
    ) {
        Ok(closed) => {
            for answer in answers {
                show(rt, answer)?;
            }
            for one in &list[..3] {
                println!(rt; "let in: {}", one.ticket)?;
            }
            let totals = closed.totals;
            println!(rt; "running {}, waiting {}", totals.running, totals.waiting)
        }
        Err(fault) => println!(rt; "text refused {}", fault.number()),
    }
}

fn main(rt: HostRuntime) -> io::Result<()> {
    let heat = [
        Call::Begin(0, 5),
        Call::Begin(1, 5),
        Call::End(0),
        Call::Begin(2, 1),
        Call::End(3),
        Call::End(1),
        Call::Begin(3, 2),
        Call::End(2),
        Call::Withdraw(1),
        Call::Begin(4, 0),
    ];
    let gate = [
        Call::Begin(0, 0),
        Call::Begin(1, 3),
        Call::Begin(2, 7),
        Call::Begin(1, 7),
        Call::Begin(2, 10),
        Call::End(0),
        Call::Withdraw(2),
        Call::Withdraw(2),
        Call::End(1),
        Call::End(2),
    ];
    let poolside = b"path arm; {touch, hand}; split end";
    let either = b"path go; (left, right) end";
    println!(rt; "poolside, by rank")?;
    replayed::<RankRoom>(&rt, poolside, &heat)?;
    println!(rt; "poolside, by age")?;
    replayed::<AgeRoom>(&rt, poolside, &heat)?;
    println!(rt; "a gate, by rank")?;
    replayed::<RankRoom>(&rt, either, &gate)?;
    println!(rt; "a gate, by age")?;
    replayed::<AgeRoom>(&rt, either, &gate)?;
    println!(rt; "a text at fault")?;
    replayed::<AgeRoom>(&rt, b"path a;a end", &gate)
}
