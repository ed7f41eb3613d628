// The log, line by line.
ghost use Rattle.std.specs.Prelude.{[], OnOk};
ghost use Rattle.paths.specs.Grammar.{Text};
ghost use Rattle.run.specs.Memory.{Reached};
ghost use Rattle.order_log.specs.Answers.{ReadNames};
ghost use Rattle.unit.specs.Steps.{LogAdded};

use crate::prints::add;
use input::LineReader;
use order_log::rule_line;
use rooms::waiting::Room;
use run::answer::LetIn;
use run::state::Run;
use std::alloc::AllocError;
use tokens::Names;

// Rules the lines of a log, and adds what is printed for each to the output.
pub(crate) fn add_rulings<R: Room>(
    run: &mut Run<R>,
    names: Names,
    log: &[u8],
    page: &mut [u8; 16384],
    out: &mut Vec<u8>,
) -> Result<(), AllocError>
    ensures added { OnOk result ((t : Text) → ReadNames names.entry.records.now → Reached t R.rule run.old [] → LogAdded R.places R.rule t names.entry.text.now names.entry.records.now log.now run.new out.old.items out.new.items) }
{
    let mut list = [LetIn::default(); 256];
    for (i, line) in LineReader::new(log).enumerate() {
        let printed = rule_line(run, names, line, i + 1, &mut list, page);
        add(printed, page, out)?;
    }
    Ok(())
}
