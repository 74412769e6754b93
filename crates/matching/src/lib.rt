// The first perfect matching of any relation.
//
// `first_matching` answers which right member each left member gets in the perfect matching that comes first in dictionary
// order, or which left members block every perfect matching. It is offered to the crates above: it asks them to lend tables
// of the right length and clear marks, as its `requires` says. It allocates nothing and does not recurse, and however it
// ends the marks are again as they were.
//
// It rests on the crate `matchings`, which says what a perfect matching and a blocking set are, and has the lemmas.
#![tactic(auto)]

mod notes;
mod placing;
mod quest;
mod reaching;
mod relation;
mod search;
mod tables;
mod ticks;
mod work_list;

pub use relation::Relation;
pub use search::{Blockers, first_matching};
pub use tables::Tables;
pub use work_list::{Entry, WorkList};
