ghost use Rattle.std.specs.Prelude.{◌≡◌, ◌≤◌, length, is_ok, nat_le};
ghost use Rattle.page.specs.Written.{Written};
ghost use Rattle.print.specs.Lines.{stage_bytes, fault_line};
ghost use Rattle.print.specs.Printed.{Printed};

use super::words::{Word, put_line};
use page::{SmallPage, check_page};
use reading::{ReadFault, Stage};

// The word for a stage.
fn stage_word(stage: Stage) -> &'static [u8]
    ensures word { result.now ≡ stage_bytes stage }
    ensures short { length result.now ≤ 7 }
{
    match stage {
        Stage::Bytes => b"bytes",
        Stage::Grammar => b"grammar",
        Stage::Rules => b"rules",
        Stage::Run => b"run",
        Stage::Log => b"log",
        Stage::Call => b"call",
    }
}

// Writes the line of a fault.
fn put_fault(page: &mut [u8], fault: ReadFault) -> usize
    ensures written { Written (fault_line fault) page.old page.new result }
    ensures short { length (fault_line fault) ≤ 53 }
{
    let stage = Word::Text(stage_word(fault.stage()));
    let number = Word::Number(usize::from(fault.number()));
    match fault.place() {
        None => put_line(page, stage, &[number]),
        Some(place) => put_line(
            page,
            stage,
            &[number, Word::Text(b"at"), Word::Number(place)],
        ),
    }
}

// Prints the line of a text's fault, and answers how many bytes; refuses a page under 16,384 bytes.
#[tactic(auto, using(crate::proofs::Joined::whole))]
pub fn print_fault(page: &mut [u8], fault: ReadFault) -> Result<usize, SmallPage>
    ensures checked { is_ok result ≡ nat_le 16384 (length page.old) }
    ensures printed { Printed (fault_line fault) page.old page.new result }
{
    check_page(page)?;
    Ok(put_fault(page, fault))
}
