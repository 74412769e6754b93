ghost use Rattle.std.specs.Prelude.{◌≡◌};
ghost use Rattle.decklists.specs.Laid.{laid_square, laid_extent};

use crate::extent::Extent;
use grid::sides::Sides;
use grid::square::Square;

// Which way round a new deck lies: as the floor is read, or with rows and columns exchanged.
#[derive(Clone, Copy, PartialEq, Eq, Debug)]
pub enum Laying {
    Upright,
    Lying,
}

impl Laying {
    pub fn square(self, square: Square) -> Square
        ensures { result ≡ laid_square self square }
    {
        match self {
            Laying::Upright => square,
            Laying::Lying => square.turned(),
        }
    }

    pub fn extent(self, sides: Sides) -> Extent
        ensures { result ≡ laid_extent self sides.height sides.width }
    {
        match self {
            Laying::Upright => Extent {
                rows: sides.rows(),
                columns: sides.columns(),
            },
            Laying::Lying => Extent {
                rows: sides.columns(),
                columns: sides.rows(),
            },
        }
    }
}
