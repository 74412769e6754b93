ghost use Rattle.std.specs.Prelude.{◌≡◌, ◌*◌, ◌^◌, ◌<◌, ◌≤◌, length};
ghost use Rattle.matchings.specs.Reaching.{Clear};
ghost use Rattle.matching.specs.Tables.{Ready, Kept};
ghost use Rattle.plan.specs.Routes.{SameEnds};
ghost use Rattle.plan.specs.Rows.{Tallied, BaysBelow, Whole, FirstRows};

use crate::bay_counts::BayCounts;
use crate::give::{give_row, unplace};
use course::route::Route;
use grid::sides::{GREATEST_SIDE, Sides};
use matching::{Entry, Tables, WorkList, first_matching};
use planning::matching_count;

// How many pairs of bays the largest floor has.
const GREATEST_BAY_PAIRS: usize = GREATEST_SIDE * GREATEST_SIDE;

// Counts the carriers with no middle row below `row`, by start bay and goal bay.
fn tally(routes: &[Route], row: u8, bays: usize, counts: &mut [u16])
    requires size { (bays * bays ≤ length counts.old) × ((length routes.now < 2 ^ 16) × (bays < 256)) }
    requires bays { BaysBelow bays routes.now }
    ensures { Tallied routes.now (length routes.now) row bays counts.new }
{
    counts.fill(0);
    for route in routes {
        if route.middle_row >= row {
            counts[usize::from(route.start.bay) * bays + usize::from(route.goal.bay)] += 1;
        }
    }
}

// Each carrier gets its middle row, in tables of the floor's size.
fn fill(
    routes: &mut [Route],
    sides: Sides,
    counts: &mut [u16],
    matching: &mut [usize],
    tables: &mut Tables,
)
    requires counts { sides.width * sides.width ≤ length counts.old }
    requires size { length matching.old ≡ sides.width }
    requires ready { Ready sides.width tables.old }
    requires whole { Whole sides routes.old }
    ensures ends { SameEnds routes.old routes.new }
    ensures rows { FirstRows sides routes.new }
    ensures kept { Kept tables.old tables.new }
{
    let rows = matching_count(sides) as u8;
    unplace(routes, rows);
    for row in 0..rows {
        tally(routes, row, sides.width, counts);
        let waiting = BayCounts::new(counts, sides.width);
        first_matching(&waiting, matching, tables).unwrap();
        give_row(routes, sides, row, matching);
    }
}

// Each carrier gets its middle row.
pub fn give_middle_rows(routes: &mut [Route], sides: Sides, marks: &mut [u8])
    requires marks { (sides.width ≤ length marks.old) × (Clear marks.old sides.width) }
    requires whole { Whole sides routes.old }
    ensures ends { SameEnds routes.old routes.new }
    ensures rows { FirstRows sides routes.new }
    ensures marks { marks.new ≡ marks.old }
{
    // Kept as it is: the search allocates nothing, so its tables are local arrays, here with a place for each bay.
    let mut counts = [0; GREATEST_BAY_PAIRS];
    let mut matching = [0; GREATEST_SIDE];
    let mut block = [0; GREATEST_SIDE];
    let mut entries = [Entry::default(); GREATEST_SIDE];
    let mut work = WorkList::over(&mut entries);
    let bays = sides.width;
    let mut tables = Tables {
        block: &mut block[..bays],
        marks,
        work: &mut work,
    };
    fill(
        routes,
        sides,
        &mut counts,
        &mut matching[..bays],
        &mut tables,
    );
}
