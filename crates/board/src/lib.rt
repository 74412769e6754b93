// The board: a deck that keeps what stands on each square, with a stop contact that its owner opens and closes.
//
// For: whoever needs a deck of their own. Promises: it is a deck, ready while the contact is closed, and no call of the
// deck changes the contact; a new one is as New says. Rests on: grid, deck, decklists.
#![tactic(auto)]

ghost use Rattle.std.specs.Prelude.{◌≡◌, ◌*◌, length};
ghost use Rattle.decklists.specs.Carriers.{carriers_view};
ghost use Rattle.decklists.specs.Notes.{PlacesNoted};

use decklists::carriers::Carriers;

pub mod acts;
pub mod build;

#[derive(Drop)]
pub struct Board {
    // Where each carrier stands, so that nobody has to look for it.
    carriers: Carriers,
    // Which carrier stands on each square.
    standing: Vec<Option<usize>>,
    closed: bool,
    ghost room: { length standing.items ≡ (carriers_view carriers).columns * (carriers_view carriers).rows },
    ghost noted: { PlacesNoted (carriers_view carriers) standing.items },
}
