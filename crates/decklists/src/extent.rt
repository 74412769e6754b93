ghost use Rattle.std.specs.Prelude.{◌≡◌, ◌*◌, ◌^◌, ◌<◌, MatchBool};
ghost use Rattle.grid.specs.Squares.{OnFloor, Remains, led};
ghost use Rattle.decklists.specs.Notes.{square_number};

use grid::heading::Heading;
use grid::square::Square;

// How many rows and columns of squares a deck has.
#[derive(Clone, Copy, PartialEq, Eq, Debug)]
pub struct Extent {
    pub rows: usize,
    pub columns: usize,
}

impl Extent {
    // A carrier on that square with that heading remains on the floor.
    pub fn remains(self, square: Square, heading: Heading) -> bool
        ensures { MatchBool result (Remains self.rows self.columns square heading) (Remains self.rows self.columns square heading → ⊥) }
    {
        match heading {
            Heading::Stay => true,
            Heading::Up => 0 < square.row,
            Heading::Right => square.column < self.columns.saturating_sub(1),
            Heading::Down => square.row < self.rows.saturating_sub(1),
            Heading::Left => 0 < square.column,
        }
    }

    // Where a carrier on that square with that heading comes to.
    pub fn led(self, square: Square, heading: Heading) -> Square
        requires { OnFloor self.rows self.columns square }
        ensures { result ≡ led square heading }
    {
        let Square { row, column } = square;
        match heading {
            Heading::Stay => square,
            Heading::Up => Square {
                row: row.saturating_sub(1),
                column,
            },
            Heading::Right => Square {
                row,
                column: column + 1,
            },
            Heading::Down => Square {
                row: row + 1,
                column,
            },
            Heading::Left => Square {
                row,
                column: column.saturating_sub(1),
            },
        }
    }

    // How many squares there are.
    pub fn squares(self) -> usize
        requires { self.columns * self.rows < 2 ^ 64 }
        ensures { result ≡ self.columns * self.rows }
    {
        self.columns * self.rows
    }

    // The number of a square, counted row by row.
    pub fn number(self, square: Square) -> usize
        requires inside { OnFloor self.rows self.columns square }
        requires few { self.columns * self.rows < 2 ^ 64 }
        ensures number { result ≡ square_number self.columns square }
        ensures below { result < self.columns * self.rows }
    {
        square.row * self.columns + square.column
    }
}
