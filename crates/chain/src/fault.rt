ghost use Rattle.std.specs.Prelude.{◌≡◌};
ghost use Rattle.chain.specs.Faults.{floor_fault_number};
ghost use Rattle.chain.specs.declared.fault.FloorFault.TheVariants.{GoRefused, NoMemory};

use deck::fault::DeckFault;
use std::alloc::AllocError;

// Why a call of the floor is refused.
#[derive(Clone, Copy, PartialEq, Eq, Debug)]
pub enum FloorFault {
    BadSides = 1,
    WrongDeck = 2,
    OffSlot = 3,
    FewMarks = 4,
    DirtyMarks = 5,
    Unfinished = 6,
    Astray = 7,
    WrongRule = 8,
    Unfillable = 9,
    NoNextMove = 10,
    GoRefused = 11,
    NoLastMove = 12,
    NoRoom = 36,
    NoMemory = 47,
}

impl FloorFault {
    pub fn number(self) -> u8
        ensures { result ≡ floor_fault_number self }
    {
        self as u8
    }
}

// Whatever a deck gives as its reason, the floor's is that it refused to go.
impl From<DeckFault> for FloorFault {
    ghost from_gives = { λ _ fault. fault ≡ GoRefused };

    fn from(_refused: DeckFault) -> FloorFault {
        FloorFault::GoRefused
    }
}

impl From<AllocError> for FloorFault {
    ghost from_gives = { λ _ fault. fault ≡ NoMemory };

    fn from(_error: AllocError) -> FloorFault {
        FloorFault::NoMemory
    }
}
