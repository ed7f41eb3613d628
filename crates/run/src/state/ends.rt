// How a run begins and how it ends.
ghost use Rattle.std.specs.Prelude.{◌≡◌, List, []};
ghost use Rattle.paths.specs.Grammar.{Text};
ghost use Rattle.rules.specs.Rules.{Within};
ghost use Rattle.translation.specs.Translation.{Translates};
ghost use Rattle.run.specs.Closing.{Totaled};
ghost use Rattle.run.specs.Memory.{Reached};
ghost use Rattle.run.specs.Records.{Record};

use crate::answer::{Closed, Totals};
use crate::state::Run;
use doors::{Doors, Occurrence};
use rooms::waiting::Room;
use table::Table;
use translation::Translated;

impl<R: Room> Run<R> {
    // Opens a run of a translated text: makes its room and copies the doors.
    pub fn open(translated: &Translated, occurrences: &Table<Occurrence>) -> Self
        ensures opened { (t : Text) → Within t → Translates t translated.now occurrences.now → Reached t R.rule result [] }
    {
        Run {
            room: R::new(),
            doors: Doors::new(occurrences.records()),
            running: [0; 64],
            operations: translated.names().min(64),
            accepted: 0,
            let_in: 0,
            ended: 0,
            withdrawn: 0,
        }
    }

    // Takes the run apart into its totals and its room.
    pub(crate) fn apart(self) -> Closed<R>
        ensures totals { (t : Text) (rs : List Record) → Reached t R.rule self rs → Totaled rs result.totals }
        ensures room { result.room ≡ self.room }
        ensures waits { R.entries result.room ≡ self.entries }
    {
        let Run {
            room,
            doors: _,
            running: _,
            operations: _,
            accepted,
            let_in,
            ended,
            withdrawn,
        } = self;
        let totals = Totals {
            accepted,
            running: let_in.saturating_sub(ended),
            waiting: room.count(),
            ended,
            withdrawn,
        };
        Closed { totals, room }
    }
}

impl<R: Room + Drop> Run<R> {
    // Closes the run, and lets its room go.
    pub fn close(self) -> Totals
        ensures totals { (t : Text) (rs : List Record) → Reached t R.rule self rs → Totaled rs result }
    {
        self.apart().totals
    }
}
