ghost use Rattle.std.specs.Prelude.{◌≡◌, ◌*◌, ◌<◌, ◌≤◌, MatchOption};
ghost use Rattle.grid.specs.Sides.{GoodSide, GoodSides, row_count, column_count, slot_count};
ghost use Rattle.grid.specs.Slots.{numbered_slot};

use crate::slot::Slot;

// The greatest number of cells along a side.
pub const GREATEST_SIDE: usize = 16;

// How many slots, and so carriers, the largest floor has.
pub const GREATEST_SLOTS: usize = 3 * GREATEST_SIDE * GREATEST_SIDE;

// A floor's sides: cells down and cells across. A cell is 3 by 3 squares.
#[derive(Clone, Copy, PartialEq, Eq, Debug)]
pub struct Sides {
    pub height: usize,
    pub width: usize,
    ghost tall: { GoodSide height },
    ghost wide: { GoodSide width },
}

impl Sides {
    // None unless both sides are from 1 to the greatest.
    pub fn new(height: usize, width: usize) -> Option<Sides>
        ensures { MatchOption result (GoodSides height width → ⊥) (λ s. (s.height ≡ height) × (s.width ≡ width)) }
    {
        if height < 1 || height > GREATEST_SIDE || width < 1 || width > GREATEST_SIDE {
            return None;
        }
        Some(Sides { height, width })
    }

    // Rows of squares, and of slots.
    pub fn rows(self) -> usize
        ensures { result ≡ row_count self.height }
    {
        3 * self.height
    }

    // Columns of squares.
    pub fn columns(self) -> usize
        ensures { result ≡ column_count self.width }
    {
        3 * self.width
    }

    // Slots, and so carriers.
    pub fn slots(self) -> usize
        ensures { result ≡ slot_count self.height self.width }
    {
        self.rows() * self.width
    }

    // The slot of a number, counted row by row; absent where there is no such slot.
    pub fn slot(self, number: usize) -> Option<Slot>
        ensures { MatchOption result (slot_count self.height self.width ≤ number) (λ s. (number < slot_count self.height self.width) × (s ≡ numbered_slot self.width number)) }
    {
        if number < self.slots() {
            Some(Slot {
                row: (number / self.width) as u8,
                bay: (number % self.width) as u8,
            })
        } else {
            None
        }
    }
}
