// Reads a text into its tokens and its names, or tells its first fault.
#![tactic(auto)]

ghost use Rattle.std.specs.Prelude.{◌≡◌, ◌≤◌, length};
ghost use Rattle.table.specs.Contents.{contents, all_places};
ghost use Rattle.tokens.specs.Reader.{bytes};
ghost use Rattle.rules.specs.Names.{firsts, terminals};
ghost use Rattle.rules.specs.Rules.{Kept};
ghost use Rattle.reading.specs.Standing.{Follows, Follows-prop, Counted};

use counting::Counts;
use table::Table;
use tokens::{BytesFault, Name, Token, TokenReader};

mod counting;
mod descent;
mod faults;
mod steps;
pub mod text;

// A limit or path condition of a text, by the number of the fault of passing it.
#[derive(Clone, Copy)]
pub enum Limit {
    // at most 16 brackets open at once
    OpenBrackets = 6,
    // no brace inside a brace
    OpenBraces,
    // no name twice in its path
    NameOnce,
    // at most 32 paths
    Paths,
    // at most 64 different names
    Names,
    // at most 256 names, repeats counted
    Occurrences,
    // at most 256 pairs of brackets
    Brackets,
}

// Why the tokens of a text are no sentence.
#[derive(Clone, Copy)]
pub enum GrammarFault {
    // there is no next token
    Bytes(BytesFault),
    // the tokens up to the one at this place begin no sentence
    Unexpected(usize),
    // the text is over before its sentence, at this place
    Short(usize),
}

// Why a text is refused.
#[derive(Clone, Copy)]
pub enum ReadFault {
    // the grammar does not derive it
    Grammar(GrammarFault),
    // the token at this place passes a limit
    Rule(Limit, usize),
    // a table has fewer places than reading needs
    TooFewPlaces,
}

// Where in the work a fault is told.
#[derive(Clone, Copy)]
pub enum Stage {
    Bytes,
    Grammar,
    Rules,
    Run,
    Log,
    Call,
}

// A text that was read: how many paths, different names and names with repeats it has.
#[derive(Drop)]
pub struct Read {
    paths: usize,
    names: usize,
    occurrences: usize,
}

// A text being read: the tables that hold the tokens taken and their names, what follows them, and what was counted over them.
// The tokens taken are the text's first ones and keep the rules; the text is short enough, and no table will be full.
#[derive(Drop)]
struct Reading<'a, 't, 'p, 'n, 'q> {
    text: &'a [u8],
    source: TokenReader<'a>,
    tokens: &'t mut Table<'p, Token>,
    names: &'n mut Table<'q, Name>,
    ahead: Result<Option<Token>, BytesFault>,
    counts: Counts,
    ghost short: { length text.now ≤ 16384 },
    ghost token_places: { 1088 ≤ length (all_places tokens.now) },
    ghost name_places: { 64 ≤ length (all_places names.now) },
    ghost one_text: { bytes source ≡ text.now },
    ghost follows: { Follows text.now (contents tokens.now) source.place ahead } by { Follows-prop text.now (contents tokens.now) source.place ahead },
    ghost kept: { Kept (terminals text.now (contents tokens.now)) },
    ghost listed: { contents names.now ≡ firsts text.now (contents tokens.now) },
    ghost counted: { Counted counts (terminals text.now (contents tokens.now)) },
}
