// From a rule to a plan: each carrier's goal and middle row, into its route.
//
// For: the floor's order call. Promises: `make_plan` makes the one plan of the rule for the squares that the carriers
// stand on, or tells that no perfect matching exists; crates/planning has the pages to read, and specs/Making.antt what
// is answered. It is an inner call, offered to the crate above: its `requires` ask for a rule of the floor's size, for
// starts in slots of their own, and for clear marks. It allocates nothing; its tables are local arrays of the largest
// floor. Rests on: matching, for every matching; planning, for what a plan is and all that holds of it.
#![tactic(auto)]

mod assign;
mod bay_counts;
mod give;
pub mod make;
mod middles;
