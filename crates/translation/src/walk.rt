ghost use Rattle.std.specs.Prelude.{◌≡◌, ◌≤◌, is_ok};
ghost use Rattle.table.specs.Contents.{RestKept};
ghost use Rattle.translation.specs.Trees.{SequenceTold, SelectionTold, ElementTold, BracketTold, first, PathsTold};
ghost use Rattle.translation.specs.Translation.{enough, Outcome};

use super::steps::{Between, Place, after, note};
use super::text::Source;
use super::{TooFewPlaces, Translated};
use doors::Occurrence;
use reading::Read;
use table::Table;
use tokens::{Kind, Name, Names, Token};

impl<'a> Source<'a> {
    // Translates a sequence that starts at a place, and answers the place behind it.
    #[cycle(bracket_element_selection_sequence)]
    fn sequence(&self, at: Place, between: Between, depth: u8, out: &mut Table<Occurrence>) -> Place
        ensures forward { at.token ≤ result.token }
        ensures kept { RestKept out.old out.new }
        ensures told { SequenceTold self.now depth at between result out.old out.new }
    {
        let mut start = at;
        let mut part = between;
        while let Some(semaphore) = self.semaphore_behind(start) {
            let here = self.selection(start, part.before(semaphore), depth, out);
            start = self.past(here).semaphore_taken();
            part = part.behind(semaphore);
        }
        self.selection(start, part, depth, out)
    }

    // Translates a selection: its elements have the same doors.
    #[cycle(bracket_element_selection_sequence)]
    fn selection(
        &self,
        at: Place,
        between: Between,
        depth: u8,
        out: &mut Table<Occurrence>,
    ) -> Place
        ensures forward { at.token ≤ result.token }
        ensures kept { RestKept out.old out.new }
        ensures told { SelectionTold self.now depth at between result out.old out.new }
    {
        let mut start = at;
        loop {
            let here = self.element(start, between, depth, out);
            let Some(Kind::Comma) = self.kind_at(here) else {
                return here;
            };
            start = self.past(here);
        }
    }

    // Translates an element: a name, or a sequence in brackets.
    #[cycle(bracket_element_selection_sequence)]
    fn element(&self, at: Place, between: Between, depth: u8, out: &mut Table<Occurrence>) -> Place
        ensures forward { at.token ≤ result.token }
        ensures kept { RestKept out.old out.new }
        ensures told { ElementTold self.now depth at between result out.old out.new }
    {
        let Some(token) = self.token_at(at) else {
            return at;
        };
        let next = self.past(at);
        match token.kind {
            Kind::Name => {
                note(out, between.occurrence(self.number(token)));
                next
            }
            Kind::RoundOpen => self.bracket(next, between, depth, out),
            Kind::BraceOpen => {
                let inside = between.inside_braces(at.counter);
                self.bracket(next.counter_taken(), inside, depth, out)
            }
            _ => at,
        }
    }

    // Translates the sequence inside a bracket, and passes what closes it; `depth` brackets may stand inside each other from this one on.
    #[cycle(bracket_element_selection_sequence)]
    fn bracket(&self, at: Place, between: Between, depth: u8, out: &mut Table<Occurrence>) -> Place
        ensures forward { at.token ≤ result.token }
        ensures kept { RestKept out.old out.new }
        ensures told { BracketTold self.now depth at between result out.old out.new }
    {
        let Some(inner) = depth.checked_sub(1) else {
            return at;
        };
        let here = self.sequence(at, between, inner, out);
        self.past(here)
    }

    // Translates all paths, from the first token on.
    fn paths(&self, out: &mut Table<Occurrence>) -> Translated
        ensures kept { RestKept out.old out.new }
        ensures told { PathsTold self.now first 0 result out.old out.new }
    {
        let mut at = Place::default();
        let mut path = 0;
        while let Some(Kind::Path) = self.kind_at(at) {
            let between = Between::of_path(path, at.semaphore);
            let inside = self.past(at).semaphore_taken();
            let here = self.sequence(inside, between, 16, out);
            at = self.past(here);
            path = after(path);
        }
        Translated {
            names: self.names.records.len(),
            paths: usize::from(path),
            semaphores: usize::from(at.semaphore),
            counters: usize::from(at.counter),
        }
    }
}

// Whether the tables have the places that are stated for them.
fn enough_places(
    tokens: &Table<Token>,
    names: &Table<Name>,
    occurrences: &Table<Occurrence>,
) -> bool
    ensures enough { result ≡ enough tokens.now names.now occurrences.now }
{
    tokens.places() >= 1088 && names.places() >= 64 && occurrences.places() >= 256
}

// Empties the table of occurrences and fills it with those of the text, or refuses where a table has too few places.
pub fn translate(
    read: Read,
    text: &[u8],
    tokens: &Table<Token>,
    names: &Table<Name>,
    occurrences: &mut Table<Occurrence>,
) -> Result<Translated, TooFewPlaces>
    ensures checked { is_ok result ≡ enough tokens.now names.now occurrences.old }
    ensures outcome { Outcome read text.now tokens.now names.now occurrences.old occurrences.new result }
{
    if !enough_places(tokens, names, occurrences) {
        return Err(TooFewPlaces { read });
    }
    occurrences.clear();
    let source = Source {
        tokens: tokens.records(),
        names: Names {
            text,
            records: names.records(),
        },
    };
    Ok(source.paths(occurrences))
}
