// Relations as text, and their first perfect matchings: what the programs `firstmatching` and `matchingcheck` share.
//
// A relation is a line with its size n, then n lines of n characters 0 and 1, left members down and right members across.
// The reading functions answer exactly what specs/Sheets says is there; `solve` answers the first perfect matching. Some of
// the functions ask what their `requires` says: they are offered to the programs only. It rests on the crate `matching`.
#![tactic(auto)]

mod classes;
mod reading;
mod solving;
mod table;

pub use reading::{Sheet, first_sheet};
pub use solving::{first_in, solve};
pub use table::TextTable;
