// The floor's geometry: sides, slots, squares and headings.
//
// For: every crate that speaks of places on a floor. Promises: each function answers what the definition of its
// name in specs/ says. Rests on: nothing but std.
#![tactic(auto)]

pub mod heading;
pub mod sides;
pub mod slot;
pub mod square;
