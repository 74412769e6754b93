ghost use Rattle.std.specs.Prelude.{◌≡◌};
ghost use Rattle.grid.specs.Slots.{slot_square};

use crate::square::Square;

// A slot: a square in which a carrier rests. Bay b is the column of squares 3b + 1; each of its squares is a slot.
#[derive(Clone, Copy, PartialEq, Eq, Debug)]
pub struct Slot {
    pub row: u8,
    pub bay: u8,
}

impl Slot {
    pub fn square(self) -> Square
        ensures { result ≡ slot_square self }
    {
        Square {
            row: usize::from(self.row),
            column: 3 * usize::from(self.bay) + 1,
        }
    }
}
