// The public calls: a log line is ruled and printed, and the totals are printed.
ghost use Rattle.std.specs.Prelude.{◌≡◌, length, is_ok, nat_le};
ghost use Rattle.print.specs.Printed.{Printed};
ghost use Rattle.order_log.specs.Print.{total_line};
ghost use Rattle.order_log.specs.Answers.{RuledLine};

use crate::asking::ask;
use crate::prints::Printer;
use page::{SmallPage, check_page};
use print::{Word, put_line};
use rooms::waiting::Room;
use run::answer::{LetIn, Totals};
use run::state::Run;
use tokens::Names;

// Rules one line of a log by a run, and prints the ruling at the page's front; answers how many bytes. An end's letting-ins are put into the list.
// Refuses a page under 16,384 bytes, and then touches nothing.
pub fn rule_line<R: Room>(
    run: &mut Run<R>,
    names: Names,
    line: &[u8],
    number: usize,
    list: &mut [LetIn; 256],
    page: &mut [u8],
) -> Result<usize, SmallPage>
    ensures checked { is_ok result ≡ nat_le 16384 (length page.old) }
    ensures ruled { RuledLine R.places R.rule names.entry.text.now names.entry.records.now line.now number run.old run.new list.old list.new page.old page.new result }
{
    check_page(page)?;
    let answer = ask(run, names, line, list);
    Ok(Printer { names, number }.put_answer(page, list, answer))
}

// Prints the totals of a closed run at the page's front, and answers how many bytes. Refuses a page under 16,384 bytes, and then leaves it.
#[tactic(auto, using(print::proofs::Joined::whole))]
pub fn print_totals(page: &mut [u8], totals: Totals) -> Result<usize, SmallPage>
    ensures checked { is_ok result ≡ nat_le 16384 (length page.old) }
    ensures printed { Printed (total_line totals) page.old page.new result }
{
    check_page(page)?;
    let counts = [
        Word::Number(totals.accepted as usize),
        Word::Number(totals.running as usize),
        Word::Number(totals.waiting),
        Word::Number(totals.ended as usize),
        Word::Number(totals.withdrawn as usize),
    ];
    Ok(put_line(page, Word::Text(b"total"), &counts))
}
