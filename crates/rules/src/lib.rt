// The theory of reading a text: the numbers of its names, its grammar's rules, its limits, its first fault.
#![tactic(auto)]

ghost use Rattle.rules.specs.Names.{NumbersTellNames, NumbersStay};
ghost use Rattle.rules.specs.Rules.{LimitsCount};
ghost use Rattle.rules.specs.Laid.{TokensCover};
ghost use Rattle.rules.specs.Faults.{Acceptance, OneDerivation, OneFault, ToldOrDerived, RoomEnough, NamesNumbered, NamesCounted, Cases};

// The tokens of a text, with blanks between them, are the text as far as it goes.
pub fn tokens_cover_the_text()
    ensures theorem { TokensCover }
{}

// A text is accepted exactly when the grammar derives it within the limits and path conditions.
pub fn accepted_texts_are_derived()
    ensures theorem { Acceptance }
{}

// Any two derivations of a text are the same.
pub fn a_text_has_one_derivation()
    ensures theorem { OneDerivation }
{}

// A text is refused in one way only: the tokens before the fault, its number, its place.
pub fn the_fault_is_one()
    ensures theorem { OneFault }
{}

// Every text is derived within the limits or has a first fault.
pub fn every_text_is_judged()
    ensures theorem { ToldOrDerived }
{}

// Two names of a text have one number exactly when they are spelled alike.
pub fn numbers_tell_names()
    ensures theorem { NumbersTellNames }
{}

// A name's number is known when the name is read.
pub fn numbers_stay()
    ensures theorem { NumbersStay }
{}

// The names of a derivation are exactly the numbers below the count of first occurrences.
pub fn names_are_numbered()
    ensures theorem { NamesNumbered }
{}

// A derivation has as many different names as there are first occurrences.
pub fn names_are_counted()
    ensures theorem { NamesCounted }
{}

// Tokens that keep the rules find places in both tables.
pub fn tables_have_room()
    ensures theorem { RoomEnough }
{}

// The limits bound the names, brackets and paths among the terminals of a derivation.
pub fn limits_count_terminals()
    ensures theorem { LimitsCount }
{}

// Six texts at fault, judged from the definitions.
pub fn cases_hold()
    ensures theorem { Cases }
{}
