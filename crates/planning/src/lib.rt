// The plan of an order: which goal, and which middle row, a rule gives each carrier of a floor.
//
// For: the crate `plan`, which makes plans, and the floor's calls, which carry them out. Promises: the theorems on
// `matching_count`. There is one plan at most for a rule and the squares that the carriers stand on; it is a
// column-row-column shuffle, so it is carried out by lawful moves; and every matching that it asks for exists. specs/
// are the pages to read, in this order: Assignments, MiddleRows, Planned, Theorems. The lemmas that need no code of the
// planner stand here, so that an edit of it does not prove them anew. Rests on: grid, rules, matchings, and motion's
// theorem.
#![tactic(auto)]

ghost use Rattle.std.specs.Prelude.{◌≡◌};
ghost use Rattle.grid.specs.Sides.{row_count};
ghost use Rattle.planning.specs.Theorems.{PlanIsUnique, PlanShuffles, MatchingsNeverBlock};

use grid::sides::Sides;

// How many matchings a plan asks for: one for each middle row. No bays block any of them, and the plan that they make
// is the only one, and a shuffle.
pub fn matching_count(sides: Sides) -> usize
    ensures count { result ≡ row_count sides.height }
    ensures matched { MatchingsNeverBlock }
    ensures shuffles { PlanShuffles }
    ensures unique { PlanIsUnique }
{
    sides.rows()
}
