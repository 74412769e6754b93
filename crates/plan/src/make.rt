ghost use Rattle.std.specs.Prelude.{◌≡◌, ◌≤◌, length};
ghost use Rattle.grid.specs.Sides.{slot_count};
ghost use Rattle.matchings.specs.Reaching.{Clear};
ghost use Rattle.motion.specs.Carrying.{InSlots};
ghost use Rattle.planning.specs.Theorems.{PlanIsUnique};
ghost use Rattle.plan.specs.Routes.{plan_on};
ghost use Rattle.plan.specs.Making.{Answered};

use crate::assign::assign;
use crate::middles::give_middle_rows;
use course::route::Route;
use grid::sides::Sides;
use rules::Rule;

// No assignment fills the slots as the rule asks.
#[derive(Clone, Copy, Debug, PartialEq, Eq)]
pub struct Unfillable;

// The plan of the rule for carriers that start where the routes say, into the routes.
// Kept as it is: sides, routes and marks go side by side, since record and caller lend them for this call alone.
pub fn make_plan<R: Rule>(
    rule: &R,
    sides: Sides,
    routes: &mut [Route],
    marks: &mut [u8],
) -> Result<(), Unfillable>
    requires rule { ((R.Rule.meaning rule.now).slots ≡ slot_count sides.height sides.width) × ((R.Rule.meaning rule.now).carriers ≡ slot_count sides.height sides.width) }
    requires size { (length routes.old ≡ slot_count sides.height sides.width) × (length routes.old ≤ length marks.old) }
    requires clear { Clear marks.old (length routes.old) }
    requires starts { InSlots (plan_on sides routes.old) (plan_on sides routes.old).start }
    ensures answer { Answered (R.Rule.meaning rule.now) sides routes.old routes.new result }
    ensures unique { PlanIsUnique }
    ensures marks { marks.new ≡ marks.old }
{
    assign(rule, sides, routes, marks)?;
    give_middle_rows(routes, sides, marks);
    Ok(())
}
