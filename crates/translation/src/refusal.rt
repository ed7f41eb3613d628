ghost use Rattle.std.specs.Prelude.{◌≡◌};
ghost use Rattle.reading.specs.declared.ReadFault.TheVariants.{TooFewPlaces as TooFew};
ghost use Rattle.translation.specs.Translation.{refusal_number};

use super::TooFewPlaces;
use reading::ReadFault;

impl From<TooFewPlaces> for ReadFault {
    ghost from_gives = { λ _ f. f ≡ TooFew };

    fn from(_refusal: TooFewPlaces) -> ReadFault {
        ReadFault::TooFewPlaces
    }
}

impl TooFewPlaces {
    // The number of the refusal.
    pub fn number(&self) -> u8
        ensures number { result ≡ refusal_number self.now }
    {
        23
    }
}
