// What decks that keep a list of their carriers have in common.
//
// For: the roster and the board, and no others. Promises: carriers are a deck that is always ready; its go is a fixed
// number of passes over carriers and squares, and after it the notes say who stands where; a new deck stands as
// specs/New.antt says. `Extent`, `swap_notes` and what stands below the carriers ask, by their requires, for what the
// carriers' invariants say. Rests on: grid, deck.
#![tactic(auto)]

pub mod carrier;
pub mod carriers;
pub mod extent;
pub mod fault;
pub mod laying;
