// The roster: a deck that keeps the square of each carrier, always ready.
//
// For: whoever needs a deck of their own. Promises: it is a deck and is always ready; a new one is as New says.
// Rests on: grid, deck, decklists.
#![tactic(auto)]

use decklists::carriers::Carriers;

pub mod acts;
pub mod build;

#[derive(Drop)]
pub struct Roster {
    carriers: Carriers,
}
