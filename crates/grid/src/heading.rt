ghost use Rattle.std.specs.Prelude.{◌≡◌};
ghost use Rattle.grid.specs.Headings.{Names, heading_number, letter, turned_heading, opposite};

// Which way a carrier goes in the next move, by one square.
#[derive(Clone, Copy, PartialEq, Eq, Debug)]
pub enum Heading {
    Stay = 0,
    Up = 1,
    Right = 2,
    Down = 3,
    Left = 4,
}

// A number that names no heading.
#[derive(Clone, Copy, PartialEq, Eq, Debug)]
pub struct NoHeading;

impl TryFrom<u8> for Heading {
    type Error = NoHeading;

    ghost try_from_gives = { Names };

    fn try_from(number: u8) -> Result<Heading, NoHeading> {
        match number {
            0 => Ok(Heading::Stay),
            1 => Ok(Heading::Up),
            2 => Ok(Heading::Right),
            3 => Ok(Heading::Down),
            4 => Ok(Heading::Left),
            _ => Err(NoHeading),
        }
    }
}

impl Heading {
    pub fn number(self) -> u8
        ensures { result ≡ heading_number self }
    {
        self as u8
    }

    // The letter that stands for it in a script.
    pub fn letter(self) -> u8
        ensures { result ≡ letter self }
    {
        match self {
            Heading::Stay => b'.',
            Heading::Up => b'U',
            Heading::Right => b'R',
            Heading::Down => b'D',
            Heading::Left => b'L',
        }
    }

    // The same heading where rows and columns are exchanged.
    pub fn turned(self) -> Heading
        ensures { result ≡ turned_heading self }
    {
        match self {
            Heading::Stay => Heading::Stay,
            Heading::Up => Heading::Left,
            Heading::Right => Heading::Down,
            Heading::Down => Heading::Right,
            Heading::Left => Heading::Up,
        }
    }

    // The heading that undoes it.
    pub fn opposite(self) -> Heading
        ensures { result ≡ opposite self }
    {
        match self {
            Heading::Stay => Heading::Stay,
            Heading::Up => Heading::Down,
            Heading::Right => Heading::Left,
            Heading::Down => Heading::Up,
            Heading::Left => Heading::Right,
        }
    }
}
