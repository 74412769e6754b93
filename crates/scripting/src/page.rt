// What is written of a script while its order is carried out.
ghost use Rattle.script.specs.Lines.{first_line_bytes};
ghost use Rattle.script.specs.Pasting.{Written};
ghost use Rattle.floor.specs.Shown.{shown as floor-shown};
ghost use Rattle.floor.specs.Lines.{Lined};

use chain::fault::FloorFault;
use floor::record::Floor;
use grid::sides::Sides;
use script::lines::first_line;

// How far a script has come.
#[derive(Clone, Copy)]
pub(crate) enum Phase {
    // The order is yet to be made, or its answer to be told.
    Ordering,
    // The lines of the steps made are written.
    Writing,
    // So is that of the step that is being made.
    Stepping,
    // All lines are written.
    Over,
    // The order is refused.
    Refused(FloorFault),
}

// The script of an order for these sides, as far as it is written.
// Kept as it is: the floor writes a line into a lent buffer from a place on, so how far the text is written stands beside it.
#[derive(Drop)]
pub(crate) struct Page {
    pub(crate) sides: Sides,
    pub(crate) phase: Phase,
    pub(crate) text: Vec<u8>,
    pub(crate) used: usize,
}

// The first line, at the front of the text.
pub(crate) fn write_first_line(
    text: &mut Vec<u8>,
    sides: Sides,
    steps: usize,
) -> Result<usize, FloorFault>
    ensures { Written (first_line_bytes sides.height sides.width steps) text.old.items 0 result text.new.items }
{
    first_line(text, 0, sides.height, sides.width, steps)
}

// The line of the next step, from a place on.
pub(crate) fn write_step(floor: &Floor, text: &mut Vec<u8>, at: usize) -> Result<usize, FloorFault>
    ensures { Lined (floor-shown floor.now) text.old.items at result text.new.items }
{
    floor.line(text, at)
}
