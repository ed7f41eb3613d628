// A text with its log, and a whole input.
ghost use Rattle.std.specs.Prelude.{◌≡◌, IfOk, OnOk};
ghost use Rattle.paths.specs.Grammar.{Text};
ghost use Rattle.unit.specs.Output.{TextPrints, too_long_line, Prints, OutputOf};
ghost use Rattle.unit.specs.Steps.{TreeTold, RunAdded};

use crate::prints::add;
use crate::rulings::add_rulings;
use doors::Occurrence;
use input::{check_input, split};
use order_log::print_totals;
use print::{print_doors, print_fault};
use reading::text::read;
use rooms::RankRoom;
use rooms::waiting::Room;
use run::state::Run;
use std::alloc::{AllocError, Global};
use table::Table;
use tokens::{Name, Names, Token};
use translation::{Translated, translate};

// Adds the doors of a translated text, the rulings on its log and the totals to the output.
fn add_run<R: Room + Drop>(
    translated: &Translated,
    names: Names,
    occurrences: &Table<Occurrence>,
    log: &[u8],
    out: &mut Vec<u8>,
) -> Result<(), AllocError>
    ensures added { OnOk result ((t : Text) → TreeTold names.entry.text.now names.entry.records.now translated.now occurrences.now t → RunAdded R.places R.rule names.entry.text.now log.now out.old.items out.new.items) }
{
    let mut page = [0; 16384];
    let printed = print_doors(&mut page, names, occurrences.records());
    add(printed, &page, out)?;
    let mut run = Run::<R>::open(translated, occurrences);
    let ruled = add_rulings(&mut run, names, log, &mut page, out);
    let totals = run.close();
    ruled?;
    add(print_totals(&mut page, totals), &page, out)
}

// What is printed for a text and its log, over a room of this kind.
fn rule_text<R: Room + Drop>(heap: Global, text: &[u8], log: &[u8]) -> Result<Vec<u8>, AllocError>
    ensures printed { IfOk result (λ v. TextPrints R.places R.rule text.now log.now v.items) }
{
    let mut token_places = [Token::default(); 1088];
    let mut name_places = [Name::default(); 64];
    let mut occurrence_places = [Occurrence::default(); 256];
    let mut tokens = Table::new(&mut token_places);
    let mut names = Table::new(&mut name_places);
    let mut occurrences = Table::new(&mut occurrence_places);
    let mut out = Vec::new(heap);
    match read(text, &mut tokens, &mut names) {
        Ok(read) => {
            let translated = translate(read, text, &tokens, &names, &mut occurrences).unwrap();
            let names = Names {
                text,
                records: names.records(),
            };
            add_run::<R>(&translated, names, &occurrences, log, &mut out)?;
        }
        Err(fault) => {
            let mut page = [0; 16384];
            add(print_fault(&mut page, fault), &page, &mut out)?;
        }
    }
    Ok(out)
}

// What is printed for an input that is too long.
fn long_input_line() -> &'static [u8]
    ensures line { result.now ≡ too_long_line }
{
    b"input longer than 65536\n"
}

// What is printed for an input, over a room of this kind.
fn rule_input<R: Room + Drop>(heap: Global, input: &[u8]) -> Result<Vec<u8>, AllocError>
    ensures printed { IfOk result (λ v. Prints R.places R.rule input.now v.items) }
{
    match check_input(input) {
        Ok(()) => {
            let parts = split(input);
            rule_text::<R>(heap, parts.text, parts.log)
        }
        Err(_) => Vec::from_slice(heap, long_input_line()),
    }
}

// The output for an input: the text's fault, or its doors, the rulings on its log and the totals. The room is by rank. The only other answer is want of
// memory.
pub fn rule_on(heap: Global, input: &[u8]) -> Result<Vec<u8>, AllocError>
    ensures printed { IfOk result (λ v. OutputOf input.now v.items) }
{
    rule_input::<RankRoom>(heap, input)
}
