ghost use Rattle.std.specs.Prelude.{◌≡◌, if◌then◌else◌, ◌==◌, nat_lt};
ghost use Rattle.grid.specs.declared.heading.Heading.TheVariants.{Up, Right, Down, Left};
ghost use Rattle.motion.specs.Runs.{away, run_square, turn_square};

use grid::heading::Heading;
use grid::square::Square;

// A run along a line, seen upright: from one row to another.
#[derive(Clone, Copy, Debug, PartialEq, Eq)]
pub struct Run {
    pub from: u16,
    pub to: u16,
}

impl Run {
    // Whether it has nowhere to go.
    pub fn is_still(self) -> bool
        ensures { result ≡ (self.from == self.to) }
    {
        self.from == self.to
    }

    // The square after `progress` steps of the run in a line.
    pub fn square(self, line: u8, progress: usize) -> Square
        ensures { result ≡ run_square line self.from self.to progress }
    {
        let from = usize::from(self.from);
        let way = self.distance();
        let gone = progress.saturating_sub(1).min(way);
        let aside = progress > 0 && progress < way + 2;
        let middle = 3 * usize::from(line) + 1;
        if self.to < self.from {
            Square {
                row: from - gone,
                column: if aside { middle - 1 } else { middle },
            }
        } else {
            Square {
                row: from + gone,
                column: if aside && way > 0 { middle + 1 } else { middle },
            }
        }
    }

    // How far it goes.
    pub fn distance(self) -> usize
        ensures { result ≡ away self.from self.to }
    {
        usize::from(self.from.abs_diff(self.to))
    }

    // The heading along the line.
    pub fn along(self) -> Heading
        ensures { result ≡ (if nat_lt self.to self.from then Up else Down) }
    {
        if self.to < self.from {
            Heading::Up
        } else {
            Heading::Down
        }
    }

    // The heading out of the middle column: the one along the line, with rows and columns exchanged.
    pub fn aside(self) -> Heading
        ensures { result ≡ (if nat_lt self.to self.from then Left else Right) }
    {
        self.along().turned()
    }

    // The heading back into the middle column.
    pub fn back(self) -> Heading
        ensures { result ≡ (if nat_lt self.to self.from then Right else Left) }
    {
        self.aside().opposite()
    }
}

// The square after `progress` steps of a turn from a row, in a line.
pub fn turn_square(line: u8, row: u16, progress: usize) -> Square
    ensures { result ≡ turn_square line row progress }
{
    let first = 3 * usize::from(line);
    let row = usize::from(row);
    match progress {
        0 => Square {
            row,
            column: first + 1,
        },
        1 => Square {
            row,
            column: first + row % 3,
        },
        _ => Square {
            row: 3 * (row / 3) + 1,
            column: first + row % 3,
        },
    }
}
