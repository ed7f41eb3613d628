// Runs into the limits of tables, runs, rooms, lists and pages, and prints the numbers that are told there.
#![tactic(auto)]

ghost use Rattle.std.specs.Prelude.{◌≤◌};

use doors::Occurrence;
use order_log::print_totals;
use page::SmallPage;
use print::{print_doors, print_fault};
use reading::ReadFault;
use reading::text::read;
use rooms::waiting::Room;
use rooms::{AgeRoom, RankRoom};
use run::answer::{LetIn, Totals};
use run::fault::RunFault;
use run::state::Run;
use std::io;
use table::Table;
use tokens::{Name, Names, Token};
use translation::translate;

// Reads and translates a text with so many places, or tells the number of the refusal.
fn translated<const TOKENS: usize, const NAMES: usize, const DOORS: usize>(
    text: &[u8],
) -> Result<(), u8>
    requires { (TOKENS ≤ 1088) × (NAMES ≤ 64) × (DOORS ≤ 256) }
{
    let mut tokens = [Token::default(); TOKENS];
    let mut names = [Name::default(); NAMES];
    let mut occurrences = [Occurrence::default(); DOORS];
    let mut tokens = Table::new(&mut tokens);
    let mut names = Table::new(&mut names);
    let mut occurrences = Table::new(&mut occurrences);
    let read = read(text, &mut tokens, &mut names).map_err(ReadFault::number)?;
    match translate(read, text, &tokens, &names, &mut occurrences) {
        Ok(_) => Ok(()),
        Err(refusal) => Err(refusal.number()),
    }
}

// The number with which an answer is refused, 0 for none.
fn refused<T: Drop, E, F: FnOnce(E) -> u8>(answer: Result<T, E>, number: F) -> u8
    requires { (e : E) → F.pre number e }
{
    answer.err().map_or(0, number)
}

fn show_tables(rt: &HostRuntime) -> io::Result<()> {
    let text = b"path a end";
    let enough = refused(translated::<1088, 64, 256>(text), |number| number);
    let few_tokens = refused(translated::<1087, 64, 256>(text), |number| number);
    let few_names = refused(translated::<1088, 63, 256>(text), |number| number);
    let few_doors = refused(translated::<1088, 64, 255>(text), |number| number);
    println!(rt; "tables: {enough}, a place fewer: {few_tokens} {few_names} {few_doors}")
}

// A run of a text over a room, or none if the text is refused.
fn opened<R: Room>(text: &[u8]) -> Option<Run<R>> {
    let mut tokens = [Token::default(); 1088];
    let mut names = [Name::default(); 64];
    let mut occurrences = [Occurrence::default(); 256];
    let mut tokens = Table::new(&mut tokens);
    let mut names = Table::new(&mut names);
    let mut occurrences = Table::new(&mut occurrences);
    let read = read(text, &mut tokens, &mut names).ok()?;
    let translated = translate(read, text, &tokens, &names, &mut occurrences).ok()?;
    Some(Run::<R>::open(&translated, &occurrences))
}

// The number with which a run refuses a call.
fn refusal<T: Drop>(answer: Result<T, RunFault>) -> u8 {
    refused(answer, RunFault::number)
}

fn show_totals(rt: &HostRuntime, totals: Totals) -> io::Result<()> {
    println!(rt;
        "total {} {} {} {} {}",
        totals.accepted, totals.running, totals.waiting, totals.ended, totals.withdrawn
    )
}

// 256 wait, the 257th is refused; an end with a list one place too short is refused, one with places enough lets all in.
fn show_full_room<R: Room + Drop>(rt: &HostRuntime) -> io::Result<()> {
    let Some(mut run) = opened::<R>(b"path go; {a} end") else {
        return println!(rt; "no run");
    };
    let first = refusal(run.begin(0, 9));
    let refused = (0..256).filter(|_| run.begin(1, 5).is_err()).count();
    let last = refusal(run.begin(1, 5));
    let short = refusal(run.end(0, &mut [LetIn::default(); 255]));
    let mut list = [LetIn::default(); 257];
    let let_in = run.end(0, &mut list).unwrap_or(0);
    let oldest = list[0].ticket;
    let youngest = list[255].ticket;
    let rest = list[256].ticket;
    let totals = run.close();
    println!(rt; "room: {first}, {refused} of 256 refused, the 257th: {last}")?;
    println!(rt;
        "list: {short}, then {let_in} let in, {oldest} to {youngest}, behind them {rest}"
    )?;
    show_totals(rt, totals)
}

// A million begins are accepted, and no more.
fn show_million(rt: &HostRuntime) -> io::Result<()> {
    let Some(mut run) = opened::<RankRoom>(b"path a end") else {
        return println!(rt; "no run");
    };
    let refused = (0..1_000_000)
        .filter(|_| {
            let begun = run.begin(0, 0);
            let ended = run.end(0, &mut []);
            begun.is_err() || ended.is_err()
        })
        .count();
    let unknown = refusal(run.begin(1, 10));
    let rank = refusal(run.begin(0, 10));
    let spent = refusal(run.begin(0, 9));
    let idle = refusal(run.end(0, &mut []));
    let foreign = refusal(run.end(1, &mut []));
    let absent = refusal(run.withdraw(1));
    let totals = run.close();
    println!(rt;
        "a million: {refused} refused, then {unknown} {rank} {spent} {foreign} {idle} {absent}"
    )?;
    show_totals(rt, totals)
}

fn show_page(rt: &HostRuntime, page: &mut [u8]) -> io::Result<()> {
    let totals = Totals {
        accepted: 4,
        running: 1,
        waiting: 0,
        ended: 3,
        withdrawn: 0,
    };
    let names = Names {
        text: b"",
        records: &[],
    };
    let doors = refused(print_doors(page, names, &[]), SmallPage::number);
    let fault = refused(
        print_fault(page, ReadFault::TooFewPlaces),
        SmallPage::number,
    );
    let total = refused(print_totals(page, totals), SmallPage::number);
    let bytes = page.len();
    let touched = page.iter().filter(|b| **b != b'#').count();
    println!(rt; "page of {bytes}: {doors} {fault} {total}, {touched} bytes touched")
}

fn main(rt: HostRuntime) -> io::Result<()> {
    show_tables(&rt)?;
    show_full_room::<AgeRoom>(&rt)?;
    show_full_room::<RankRoom>(&rt)?;
    show_million(&rt)?;
    show_page(&rt, &mut [b'#'; 16383])?;
    show_page(&rt, &mut [b'#'; 16384])
}
