use super::{GrammarFault, ReadFault, Reading};
use tokens::{Kind, Token};

impl Reading<'_, '_, '_, '_, '_> {
    ghost use Rattle.std.specs.Prelude.{◌≡◌, length};
    ghost use Rattle.rules.specs.Names.{terminal, terminal_of};
    ghost use Rattle.rules.specs.Automaton.{step};
    ghost use Rattle.reading.specs.State.{bytes, standing, ReadTo, IsAhead, Fits, Due, refused_by};

    // The token that follows, if it is of this kind.
    pub fn ahead_is(&self, kind: Kind) -> Option<Token>
        ensures ahead { IsAhead kind self.now.ahead result }
    {
        match self.ahead {
            Ok(Some(token)) if token.kind == kind => Some(token),
            _ => None,
        }
    }

    // The fault of what follows, where nothing of it may stand.
    pub fn refusal(&self) -> GrammarFault
        ensures refused { result ≡ refused_by self.now.ahead (length self.now.text.now) }
    {
        match self.ahead {
            Ok(Some(token)) => GrammarFault::Unexpected(token.place),
            Ok(None) => GrammarFault::Short(self.text.len()),
            Err(fault) => fault.into(),
        }
    }

    // Takes the token that follows, or tells the limit that it passes.
    pub fn advance(&mut self, token: Token) -> Result<(), ReadFault>
        requires { Fits token self.old }
        ensures advanced { ReadTo self.old self.new (step (standing self.old) (terminal (bytes self.old) token)) result }
    {
        self.counts.count(self.text, self.names, token)?;
        self.tokens.add(token).unwrap();
        self.ahead = self.source.next_token();
        Ok(())
    }

    // Takes the token that follows if it is of the kind that is due, or tells the text's first fault.
    pub fn take(&mut self, kind: Kind) -> Result<(), ReadFault>
        requires { Due kind self.old }
        ensures taken { ReadTo self.old self.new (step (standing self.old) (terminal_of kind 0)) result }
    {
        match self.ahead_is(kind) {
            Some(token) => self.advance(token),
            None => Err(self.refusal().into()),
        }
    }
}
