use super::{ReadFault, Reading};
use tokens::{Kind, Token};

impl Reading<'_, '_, '_, '_, '_> {
    ghost use Rattle.std.specs.Prelude.{◌≡◌, ◌-◌, ◌<◌, Ok, Some, None, OnOk};
    ghost use Rattle.rules.specs.Automaton.{start, between};
    ghost use Rattle.reading.specs.State.{standing, Awaits, Opens, Fits, NotAhead, PathDue, ReadTo, behind};

    // One or more selections with `;` between them; `depth` brackets more may open.
    #[cycle(element_bracket_selection_sequence)]
    #[tactic(auto, using(crate::proofs::Went::few))]
    fn sequence(&mut self, depth: u8) -> Result<(), ReadFault>
        requires { Awaits depth (standing self.old) }
        ensures sequence { ReadTo self.old self.new (behind (standing self.old)) result }
        ensures over { OnOk result (NotAhead Kind.Comma self.new.ahead × NotAhead Kind.Semicolon self.new.ahead) }
    {
        self.selection(depth)?;
        while let Some(token) = self.ahead_is(Kind::Semicolon) {
            self.advance(token)?;
            self.selection(depth)?;
        }
        Ok(())
    }

    // One or more elements with `,` between them.
    #[cycle(element_bracket_selection_sequence)]
    #[tactic(auto, using(crate::proofs::Went::few))]
    fn selection(&mut self, depth: u8) -> Result<(), ReadFault>
        requires { Awaits depth (standing self.old) }
        ensures selection { ReadTo self.old self.new (behind (standing self.old)) result }
        ensures over { OnOk result (NotAhead Kind.Comma self.new.ahead) }
    {
        self.element(depth)?;
        while let Some(token) = self.ahead_is(Kind::Comma) {
            self.advance(token)?;
            self.element(depth)?;
        }
        Ok(())
    }

    // A name, or a sequence between round brackets, or a sequence between braces.
    #[cycle(element_bracket_selection_sequence)]
    fn element(&mut self, depth: u8) -> Result<(), ReadFault>
        requires { Awaits depth (standing self.old) }
        ensures element { ReadTo self.old self.new (behind (standing self.old)) result }
    {
        match self.ahead {
            Ok(
                Some(
                    token @ Token {
                        kind: Kind::Name,
                        ..
                    },
                ),
            ) => self.advance(token),
            Ok(
                Some(
                    token @ Token {
                        kind: Kind::RoundOpen,
                        ..
                    },
                ),
            ) => { self.bracket(token, Kind::RoundClose, depth) }
            Ok(
                Some(
                    token @ Token {
                        kind: Kind::BraceOpen,
                        ..
                    },
                ),
            ) => { self.bracket(token, Kind::BraceClose, depth) }
            _ => Err(self.refusal().into()),
        }
    }

    // A sequence between the bracket that follows and the one that closes it.
    #[cycle(element_bracket_selection_sequence)]
    fn bracket(&mut self, token: Token, close: Kind, depth: u8) -> Result<(), ReadFault>
        requires awaits { Awaits depth (standing self.old) }
        requires ahead { self.old.ahead ≡ Ok (Some token) }
        requires opens { Opens token.kind close }
        ensures bracket { ReadTo self.old self.new (behind (standing self.old)) result }
    {
        self.advance(token)?;
        self.sequence(depth - 1)?;
        self.take(close)
    }

    // The word `path`, a sequence, the word `end`.
    fn path(&mut self) -> Result<(), ReadFault>
        requires { PathDue self.old.ahead (standing self.old) }
        ensures path { ReadTo self.old self.new between result }
    {
        self.take(Kind::Path)?;
        self.sequence(16)?;
        self.take(Kind::End)
    }

    // One or more paths, to the text's end.
    #[tactic(auto, using(crate::proofs::Went::few))]
    pub fn paths(&mut self) -> Result<(), ReadFault>
        requires { standing self.old ≡ start }
        ensures paths { ReadTo self.old self.new between result }
        ensures over { OnOk result (self.new.ahead ≡ Ok None) }
    {
        self.path()?;
        while !matches!(self.ahead, Ok(None)) {
            self.path()?;
        }
        Ok(())
    }
}
