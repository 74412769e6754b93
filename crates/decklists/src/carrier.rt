use grid::heading::Heading;
use grid::square::Square;

// Where a carrier stands, and where it is headed.
#[derive(Clone, Copy, PartialEq, Eq, Debug)]
pub struct Carrier {
    pub square: Square,
    pub heading: Heading,
}
