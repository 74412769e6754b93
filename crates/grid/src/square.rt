ghost use Rattle.std.specs.Prelude.{◌≡◌, ◌&&◌, ◌==◌};
ghost use Rattle.grid.specs.Squares.{turned_square};

// A square of a floor: rows are counted from 0 at the top, columns from 0 at the left.
#[derive(Clone, Copy, PartialEq, Eq, Debug)]
pub struct Square {
    pub row: usize,
    pub column: usize,
}

impl Square {
    // The same square where rows and columns are exchanged.
    pub fn turned(self) -> Square
        ensures { result ≡ turned_square self }
    {
        Square {
            row: self.column,
            column: self.row,
        }
    }

    pub fn is(self, other: Square) -> bool
        ensures { result ≡ (self.row == other.row && self.column == other.column) }
    {
        self == other
    }
}
