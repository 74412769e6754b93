// The carriers of a deck, by number.
ghost use Rattle.std.specs.Prelude.{◌≡◌, ◌*◌, length};
ghost use Rattle.decklists.specs.Lists.{Inside, Apart};

use crate::carrier::Carrier;
use crate::extent::Extent;

pub mod acts;
mod asks;
mod moves;
pub mod notes;
pub mod start;

#[derive(Drop)]
pub struct Carriers {
    extent: Extent,
    list: Vec<Carrier>,
    // Who comes to each square, written anew by each go.
    notes: Vec<Option<usize>>,
    ghost room: { length notes.items ≡ extent.columns * extent.rows },
    ghost inside: { Inside extent list.items },
    ghost apart: { Apart list.items },
}
