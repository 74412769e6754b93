ghost use Rattle.std.specs.Prelude.{◌≡◌, ◌≤◌, length};
ghost use Rattle.grid.specs.Sides.{slot_count};
ghost use Rattle.motion.specs.Carrying.{Good};
ghost use Rattle.course.specs.Routes.{plan_of};
ghost use Rattle.course.specs.Stages.{Staged, total_steps};

use course::route::Route;
use course::stage::Stages;
use grid::sides::Sides;
use grid::slot::Slot;

mod each;
mod line;
pub mod look;
mod moves;
mod open;
mod order;
mod standing;

// What a table of routes holds before it is written.
// Kept as it is: only `open` allocates, so the calls' tables are arrays of the largest floor.
const NOWHERE: Route = Route {
    start: Slot { row: 0, bay: 0 },
    middle_row: 0,
    goal: Slot { row: 0, bay: 0 },
};

// A floor record: the plan that it carries out, a route for each carrier, and how far it has come. The plan is good, so
// each of its four lists of places is a permutation of the slots.
#[derive(Drop)]
pub struct Floor {
    sides: Sides,
    routes: Vec<Route>,
    stages: Stages,
    steps_done: usize,
    orders: u16,
    ghost many: { length routes.items ≡ slot_count sides.height sides.width },
    ghost good: { Good (plan_of sides.height sides.width routes.items) },
    ghost staged: { Staged (plan_of sides.height sides.width routes.items) stages },
    ghost within: { steps_done ≤ total_steps stages },
}
