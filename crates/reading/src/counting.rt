ghost use Rattle.std.specs.Prelude.{◌≤◌};

use super::{Limit, ReadFault};
use table::Table;
use tokens::{Kind, Name, Names, Token, part};

// A kind of bracket.
#[derive(Clone, Copy)]
pub enum Bracket {
    Round,
    Brace,
}

// What was counted over the tokens taken: paths, names with repeats, brackets that opened, the brackets and braces still open, and which names the path has.
#[derive(Drop)]
pub struct Counts {
    pub paths: usize,
    pub occurrences: usize,
    brackets: usize,
    depth: usize,
    braces: usize,
    own: [bool; 64],
    ghost few_paths: { paths ≤ 32 },
    ghost few_occurrences: { occurrences ≤ 256 },
    ghost few_brackets: { brackets ≤ 256 },
    ghost shallow: { depth ≤ 16 },
    ghost single: { braces ≤ 1 },
}

impl Bracket {
    ghost use Rattle.std.specs.Prelude.{◌≡◌};
    ghost use Rattle.reading.specs.Counting.{braces_of};

    // How many braces a bracket is, one or none.
    fn braces(self) -> usize
        ensures braces { result ≡ braces_of self }
    {
        match self {
            Bracket::Round => 0,
            Bracket::Brace => 1,
        }
    }
}

impl Counts {
    ghost use Rattle.std.specs.Prelude.{◌≡◌, ◌<◌, length};
    ghost use Rattle.table.specs.Contents.{contents, all_places};
    ghost use Rattle.paths.specs.Grammar.{path, word};
    ghost use Rattle.reading.specs.Counting.{NoneCounted, Closable, CountedOn, CountedOrTold, CountedToken, CountedOrRefused, known_as, marked, opener, closer};

    // Nothing is counted yet.
    pub fn new() -> Counts
        ensures none { NoneCounted result }
    {
        Counts {
            paths: 0,
            occurrences: 0,
            brackets: 0,
            depth: 0,
            braces: 0,
            own: [false; 64],
        }
    }

    // Counts a path, which has no name yet, or tells that it is one too many.
    #[tactic(auto, using(crate::proofs::Marks::no_names))]
    fn count_path(&mut self) -> Result<(), Limit>
        ensures counted { CountedOrTold path self.old self.new result }
    {
        if self.paths >= 32 {
            return Err(Limit::Paths);
        }
        self.paths += 1;
        self.own = [false; 64];
        Ok(())
    }

    // Counts a bracket that opens, or tells the limit that it passes.
    fn open_bracket(&mut self, bracket: Bracket) -> Result<(), Limit>
        ensures counted { CountedOrTold (opener bracket) self.old self.new result }
    {
        let braces = bracket.braces();
        if self.depth >= 16 {
            return Err(Limit::OpenBrackets);
        }
        if self.braces + braces > 1 {
            return Err(Limit::OpenBraces);
        }
        if self.brackets >= 256 {
            return Err(Limit::Brackets);
        }
        self.depth += 1;
        self.braces += braces;
        self.brackets += 1;
        Ok(())
    }

    // Counts a bracket that closes.
    fn close_bracket(&mut self, bracket: Bracket)
        requires { Closable (closer bracket) self.old }
        ensures counted { CountedOn (closer bracket) self.old self.new }
    {
        self.depth -= 1;
        self.braces -= bracket.braces();
    }

    // Whether the path has the name of this number already.
    fn has(&self, number: usize) -> bool
        ensures has { result ≡ marked self.now number }
    {
        self.own.get(number).is_some_and(|own| *own)
    }

    // Counts a name by its number, or tells the limit that it passes.
    fn count_name(&mut self, number: usize) -> Result<(), Limit>
        ensures counted { CountedOrTold (word number) self.old self.new result }
    {
        if self.has(number) {
            return Err(Limit::NameOnce);
        }
        if number >= 64 {
            return Err(Limit::Names);
        }
        if self.occurrences >= 256 {
            return Err(Limit::Occurrences);
        }
        self.own[number] = true;
        self.occurrences += 1;
        Ok(())
    }

    // Counts a name of the text and notes it if it is new, or tells the limit that it passes.
    fn name(&mut self, text: &[u8], names: &mut Table<Name>, token: Token) -> Result<(), Limit>
        requires { (token.kind ≡ Kind.Name) × (64 ≤ length (all_places names.old)) }
        ensures counted { CountedToken text.now token self.old names.old self.new names.new result }
    {
        let known = Names {
            text,
            records: names.records(),
        };
        match known.number(part(text, token.place, token.len)) {
            Some(number) => self.count_name(number),
            None => {
                self.count_name(names.count())?;
                names.add(token.into()).unwrap();
                Ok(())
            }
        }
    }

    // Counts a token of the text, or tells the limit that it passes.
    fn token(&mut self, text: &[u8], names: &mut Table<Name>, token: Token) -> Result<(), Limit>
        requires places { 64 ≤ length (all_places names.old) }
        requires closable { Closable (known_as text.now (contents names.old) token) self.old }
        ensures counted { CountedToken text.now token self.old names.old self.new names.new result }
    {
        match token.kind {
            Kind::Name => self.name(text, names, token)?,
            Kind::Path => self.count_path()?,
            Kind::RoundOpen => self.open_bracket(Bracket::Round)?,
            Kind::BraceOpen => self.open_bracket(Bracket::Brace)?,
            Kind::RoundClose => self.close_bracket(Bracket::Round),
            Kind::BraceClose => self.close_bracket(Bracket::Brace),
            Kind::Semicolon | Kind::Comma | Kind::End => {}
        }
        Ok(())
    }

    // Counts a token of the text, or tells its fault.
    pub fn count(
        &mut self,
        text: &[u8],
        names: &mut Table<Name>,
        token: Token,
    ) -> Result<(), ReadFault>
        requires places { 64 ≤ length (all_places names.old) }
        requires closable { Closable (known_as text.now (contents names.old) token) self.old }
        ensures counted { CountedOrRefused text.now token self.old names.old self.new names.new result }
    {
        self.token(text, names, token)
            .map_err(|limit| ReadFault::Rule(limit, token.place))
    }
}
