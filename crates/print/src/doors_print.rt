ghost use Rattle.std.specs.Prelude.{◌≡◌, length, is_ok, nat_le};
ghost use Rattle.paths.specs.Grammar.{Text};
ghost use Rattle.doors.specs.Told.{told, all_told};
ghost use Rattle.page.specs.Written.{Written};
ghost use Rattle.print.specs.Lines.{line, lines, doors_print};
ghost use Rattle.print.specs.Printed.{Printed, Put, DoorsOf};

use super::words::{Word, put_line};
use doors::Occurrence;
use page::{SmallPage, check_page};
use tokens::Names;

// Writes the line of an occurrence.
fn put_occurrence(page: &mut [u8], names: Names, occurrence: Occurrence) -> usize
    ensures written { Written (line names.entry.text.now names.entry.records.now (told occurrence)) page.old page.new result }
{
    let path = usize::from(occurrence.path);
    let name = names.spelled(usize::from(occurrence.operation));
    put_line(
        page,
        Word::Number(path),
        &[
            Word::Text(name),
            Word::Text(b"in"),
            Word::Door(occurrence.left),
            Word::Text(b"out"),
            Word::Door(occurrence.right),
        ],
    )
}

// Writes the lines of all occurrences.
fn put_lines(page: &mut [u8], names: Names, occurrences: &[Occurrence]) -> usize
    ensures written { Written (lines names.entry.text.now names.entry.records.now (all_told occurrences.now)) page.old page.new result }
{
    let mut at = 0;
    for occurrence in occurrences {
        at += put_occurrence(&mut page[at..], names, *occurrence);
    }
    at
}

// Prints the doors of a text, one line an occurrence, and answers how many bytes; refuses a page under 16,384 bytes.
// Whatever the tables hold, the lines are cut where the page ends; those of an accepted text fit.
pub fn print_doors(
    page: &mut [u8],
    names: Names,
    occurrences: &[Occurrence],
) -> Result<usize, SmallPage>
    ensures checked { is_ok result ≡ nat_le 16384 (length page.old) }
    ensures put { Put (lines names.entry.text.now names.entry.records.now (all_told occurrences.now)) page.old page.new result }
    ensures whole { (t : Text) → DoorsOf names.entry.text.now names.entry.records.now occurrences.now t → Printed (doors_print names.entry.text.now t) page.old page.new result }
{
    check_page(page)?;
    Ok(put_lines(page, names, occurrences))
}
