ghost use Rattle.std.specs.Prelude.{◌≡◌, ℕ, ◌<◌, ◌≤◌, length, ◌≢◌};
ghost use Rattle.matchings.specs.Matchings.{Perfect};
ghost use Rattle.planning.specs.MiddleRows.{allows};
ghost use Rattle.plan.specs.Routes.{plan_on};
ghost use Rattle.plan.specs.Rows.{middle_of, route_waits, waiting_routes, LowRows, Lowest, Gave, Unplaced};

use course::route::Route;
use grid::sides::Sides;

// Whether the carrier of a route goes from bay `start` to bay `goal`, and has no middle row below `row`.
fn waits(route: &Route, row: u8, start: usize, goal: usize) -> bool
    ensures { result ≡ route_waits row start goal route.now }
{
    usize::from(route.start.bay) == start
        && usize::from(route.goal.bay) == goal
        && route.middle_row >= row
}

// The waiting carrier from `start` to `goal` with the lowest start row.
fn lowest(routes: &[Route], row: u8, start: usize, goal: usize) -> usize
    requires rows { LowRows routes.now }
    requires some { 0 < waiting_routes routes.now (length routes.now) row start goal }
    ensures { Lowest routes.now row start goal result }
{
    // Kept as it is: the place of the least is asked, and the loop keeps it beside the row it is compared by.
    let mut best = 0;
    let mut least = u8::MAX;
    for (c, route) in routes.iter().enumerate() {
        if waits(route, row, start, goal) && route.start.row < least {
            best = c;
            least = route.start.row;
        }
    }
    best
}

// Of each pair of bays of a perfect matching, the waiting carrier with the lowest start row gets the middle row `row`.
pub fn give_row(routes: &mut [Route], sides: Sides, row: u8, matching: &[usize])
    requires rows { LowRows routes.old }
    requires fresh { (c : ℕ) → c < length routes.old → middle_of routes.old c ≢ row }
    requires perfect { Perfect (allows (plan_on sides routes.old) row) sides.width matching.now }
    ensures { Gave sides routes.old routes.new row matching.now }
{
    for (bay, goal) in matching.iter().enumerate() {
        let carrier = lowest(routes, row, bay, *goal);
        routes[carrier].middle_row = row;
    }
}

// Nobody is placed: `rows`, which is no row, for each middle row.
// Kept as it is: one comparison asks whether a carrier waits, and an `Option` would stay in every finished plan.
pub fn unplace(routes: &mut [Route], rows: u8)
    ensures { Unplaced routes.old routes.new rows }
{
    for route in routes.iter_mut() {
        route.middle_row = rows;
    }
}
