ghost use Rattle.std.specs.Prelude.{◌≡◌, ◌≤◌, [], length};
ghost use Rattle.table.specs.Contents.{contents, all_places, RestSame, RestKept};
ghost use Rattle.reading.specs.Outcome.{Answered, Enough, Measured, Judged};

use super::counting::Counts;
use super::{GrammarFault, Read, ReadFault, Reading};
use table::Table;
use tokens::{Name, Token, TokenReader, check_length};

// Whether the tables have places enough for every text.
fn enough_places(tokens: &Table<Token>, names: &Table<Name>) -> bool
    ensures measured { Measured tokens.now names.now result }
{
    tokens.places() >= 1088 && names.places() >= 64
}

// Empties both tables and touches no place.
fn empty(tokens: &mut Table<Token>, names: &mut Table<Name>)
    ensures tokens { contents tokens.new ≡ [] }
    ensures names { contents names.new ≡ [] }
    ensures token_places { all_places tokens.new ≡ all_places tokens.old }
    ensures name_places { all_places names.new ≡ all_places names.old }
{
    tokens.clear();
    names.clear();
}

impl Reading<'_, '_, '_, '_, '_> {
    // What was counted of a text whose names are all noted.
    fn counted(&self) -> Read
        ensures paths { result.paths ≡ self.now.counts.paths }
        ensures names { result.names ≡ length (contents self.now.names.now) }
        ensures occurrences { result.occurrences ≡ self.now.counts.occurrences }
    {
        Read {
            paths: self.counts.paths,
            names: self.names.count(),
            occurrences: self.counts.occurrences,
        }
    }
}

// Whether a text is short enough to be read.
fn check(text: &[u8]) -> Result<(), GrammarFault>
    ensures judged { Judged (length text.now) result }
{
    check_length(text)?;
    Ok(())
}

// Reads a text that is short enough into empty tables, or tells its first fault.
fn read_short(
    text: &[u8],
    tokens: &mut Table<Token>,
    names: &mut Table<Name>,
) -> Result<Read, ReadFault>
    requires short { length text.now ≤ 16384 }
    requires enough { Enough tokens.old names.old }
    requires no_tokens { contents tokens.old ≡ [] }
    requires no_names { contents names.old ≡ [] }
    ensures answered { Answered text.now tokens.old names.old tokens.new names.new result }
    ensures tokens_kept { RestKept tokens.old tokens.new }
    ensures names_kept { RestKept names.old names.new }
{
    let mut source = TokenReader::new(text);
    let ahead = source.next_token();
    let mut reading = Reading {
        text,
        source,
        tokens,
        names,
        ahead,
        counts: Counts::new(),
    };
    reading.paths()?;
    Ok(reading.counted())
}

// Reads a text: fills the tables with its tokens and the first occurrences of its names, or tells its first fault.
pub fn read(
    text: &[u8],
    tokens: &mut Table<Token>,
    names: &mut Table<Name>,
) -> Result<Read, ReadFault>
    ensures answered { Answered text.now tokens.old names.old tokens.new names.new result }
    ensures tokens_rest { RestSame tokens.old tokens.new }
    ensures names_rest { RestSame names.old names.new }
{
    if !enough_places(tokens, names) {
        return Err(ReadFault::TooFewPlaces);
    }
    empty(tokens, names);
    check(text)?;
    read_short(text, tokens, names)
}

impl Read {
    // How many paths the text has.
    pub fn paths(&self) -> usize
        ensures paths { result ≡ self.now.paths }
    {
        self.paths
    }

    // How many different names the text has.
    pub fn names(&self) -> usize
        ensures names { result ≡ self.now.names }
    {
        self.names
    }

    // How many names the text has, repeats counted.
    pub fn occurrences(&self) -> usize
        ensures occurrences { result ≡ self.now.occurrences }
    {
        self.occurrences
    }
}
