ghost use Rattle.std.specs.Prelude.{◌≡◌};
ghost use Rattle.deck.specs.Faults.{fault_number};
ghost use Rattle.deck.specs.declared.fault.DeckFault.TheVariants.{NoHeading};

use grid::heading;

// Why a deck refuses to steer or to go.
#[derive(Clone, Copy, PartialEq, Eq, Debug)]
pub enum DeckFault {
    NotReady = 21,
    OffFloor = 22,
    SharedSquare = 23,
    Exchange = 24,
    NoCarrier = 25,
    NoHeading = 26,
}

impl DeckFault {
    pub fn number(self) -> u8
        ensures { result ≡ fault_number self }
    {
        self as u8
    }
}

impl From<heading::NoHeading> for DeckFault {
    ghost from_gives = { λ _ r. r ≡ NoHeading };

    fn from(_e: heading::NoHeading) -> DeckFault {
        DeckFault::NoHeading
    }
}
