// Plans carried out: where each carrier is at each time of a plan, and that every move of it is lawful.
//
// For: the crates that make plans and carry them out. Promises: the theorem on `longest_plan`, of every good plan;
// specs/ are the pages to read, in this order: Runs, Motions, Plans, Carrying. Rests on: grid, and deck's lawful moves.
#![tactic(auto)]

ghost use Rattle.std.specs.Prelude.{◌≡◌};
ghost use Rattle.motion.specs.Carrying.{longest, PlansAreCarried};

use grid::sides::Sides;

// The length that no plan on a floor exceeds. Every good plan is carried out within it, by lawful moves which can
// be undone by lawful moves.
pub fn longest_plan(sides: Sides) -> usize
    ensures bound { result ≡ longest sides.height sides.width }
    ensures carried { PlansAreCarried }
{
    2 * sides.rows() + sides.columns() + 5
}
