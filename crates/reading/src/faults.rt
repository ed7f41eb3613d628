ghost use Rattle.std.specs.Prelude.{◌≡◌};
ghost use Rattle.reading.specs.declared.GrammarFault.TheVariants.{Bytes as InGrammar};
ghost use Rattle.reading.specs.declared.ReadFault.TheVariants.{Grammar as InRead};
ghost use Rattle.reading.specs.Faults.{limit_number, fault_number, fault_stage, fault_place};

use super::{GrammarFault, Limit, ReadFault, Stage};
use tokens::BytesFault;

impl From<BytesFault> for GrammarFault {
    ghost from_gives = { λ b g. g ≡ InGrammar b };

    fn from(fault: BytesFault) -> GrammarFault {
        GrammarFault::Bytes(fault)
    }
}

impl From<GrammarFault> for ReadFault {
    ghost from_gives = { λ g r. r ≡ InRead g };

    fn from(fault: GrammarFault) -> ReadFault {
        ReadFault::Grammar(fault)
    }
}

impl Limit {
    // The number of the fault of passing the limit.
    fn number(self) -> u8
        ensures number { result ≡ limit_number self }
    {
        self as u8
    }
}

impl ReadFault {
    // The fault's number.
    pub fn number(self) -> u8
        ensures number { result ≡ fault_number self }
    {
        match self {
            ReadFault::Grammar(GrammarFault::Bytes(BytesFault::TooLong)) => 1,
            ReadFault::Grammar(GrammarFault::Bytes(BytesFault::NoToken(_))) => 2,
            ReadFault::Grammar(GrammarFault::Bytes(BytesFault::LongName(_))) => 3,
            ReadFault::Grammar(GrammarFault::Unexpected(_)) => 4,
            ReadFault::Grammar(GrammarFault::Short(_)) => 5,
            ReadFault::Rule(limit, _) => limit.number(),
            ReadFault::TooFewPlaces => 23,
        }
    }

    // The stage that tells the fault.
    pub fn stage(self) -> Stage
        ensures stage { result ≡ fault_stage self }
    {
        match self {
            ReadFault::Grammar(GrammarFault::Bytes(_)) => Stage::Bytes,
            ReadFault::Grammar(GrammarFault::Unexpected(_) | GrammarFault::Short(_)) => {
                Stage::Grammar
            }
            ReadFault::Rule(_, _) => Stage::Rules,
            ReadFault::TooFewPlaces => Stage::Call,
        }
    }

    // The fault's place in the text; a fault of the call has none.
    pub fn place(self) -> Option<usize>
        ensures place { result ≡ fault_place self }
    {
        match self {
            ReadFault::Grammar(GrammarFault::Bytes(BytesFault::TooLong)) => Some(16_384),
            ReadFault::Grammar(
                GrammarFault::Bytes(BytesFault::NoToken(place) | BytesFault::LongName(place))
                | GrammarFault::Unexpected(place)
                | GrammarFault::Short(place),
            )
            | ReadFault::Rule(_, place) => Some(place),
            ReadFault::TooFewPlaces => None,
        }
    }
}
