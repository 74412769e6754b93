ghost use Rattle.std.specs.Prelude.{◌≡◌, ℕ, ◌<◌, ◌≤◌, Bool, length, MatchResult, OnErr};
ghost use Rattle.grid.specs.Sides.{slot_count};
ghost use Rattle.matchings.specs.Matchings.{◌!◌};
ghost use Rattle.matchings.specs.Reaching.{Clear, Inj};
ghost use Rattle.matching.specs.Tables.{Ready, Kept};
ghost use Rattle.planning.specs.Assignments.{AssignedGoals, Blocked};
ghost use Rattle.plan.specs.Routes.{plan_on, SameStarts};
ghost use Rattle.plan.specs.Making.{Assigned};

use crate::make::Unfillable;
use course::route::Route;
use grid::sides::{GREATEST_SLOTS, Sides};
use matching::{Entry, Relation, Tables, WorkList, first_matching};
use rules::Rule;

// A rule as a relation of slots to carriers.
#[derive(Drop)]
pub struct Admission<'a, R> {
    rule: &'a R,
}

impl<'a, R: Rule> Admission<'a, R> {
    fn of(rule: &'a R) -> Admission<'a, R>
        ensures { result.rule.now ≡ rule.now }
    {
        Admission { rule }
    }
}

impl<R: Rule> Relation for Admission<'_, R> {
    ghost size = { λ a. (R.Rule.meaning a.rule.now).slots };

    ghost allowed = { λ a. (R.Rule.meaning a.rule.now).admits };

    ghost classes = { λ a. R.Rule.classes a.rule.now };

    fn allows(&self, left: usize, right: usize) -> bool {
        self.rule.admits(left, right)
    }

    fn class(&self, right: usize) -> Option<usize> {
        self.rule.class(right)
    }
}

// Each slot, by its number, is the goal of the carrier assigned to it.
fn set_goals(routes: &mut [Route], sides: Sides, assignment: &[usize])
    requires size { (length routes.old ≡ length assignment.now) × (length assignment.now ≡ slot_count sides.height sides.width) }
    requires inj { Inj (length assignment.now) (λ s. assignment.now ! s) }
    ensures starts { SameStarts routes.old routes.new }
    ensures goals { AssignedGoals (plan_on sides routes.new) assignment.now }
{
    for (number, carrier) in assignment.iter().enumerate() {
        routes[*carrier].goal = sides.slot(number).unwrap();
    }
}

// Each carrier gets the slot that is assigned to it under the rule for its goal, in tables of the floor's size; or the
// rule is blocked.
fn assign_in<R: Rule>(
    rule: &R,
    sides: Sides,
    routes: &mut [Route],
    assignment: &mut [usize],
    tables: &mut Tables,
) -> Result<(), Unfillable>
    requires rule { (R.Rule.meaning rule.now).slots ≡ slot_count sides.height sides.width }
    requires size { (length routes.old ≡ slot_count sides.height sides.width) × (length assignment.old ≡ length routes.old) }
    requires ready { Ready (length routes.old) tables.old }
    ensures starts { SameStarts routes.old routes.new }
    ensures assigned { MatchResult result (λ _. Assigned (R.Rule.meaning rule.now) (plan_on sides routes.new)) (λ _. Blocked (R.Rule.meaning rule.now) (slot_count sides.height sides.width)) }
    ensures refused { OnErr result (routes.new ≡ routes.old) }
    ensures kept { Kept tables.old tables.new }
{
    let admission = Admission::of(rule);
    first_matching(&admission, assignment, tables).map_err(|_| Unfillable)?;
    set_goals(routes, sides, assignment);
    Ok(())
}

// The same, in tables of the largest floor.
pub fn assign<R: Rule>(
    rule: &R,
    sides: Sides,
    routes: &mut [Route],
    marks: &mut [u8],
) -> Result<(), Unfillable>
    requires rule { (R.Rule.meaning rule.now).slots ≡ slot_count sides.height sides.width }
    requires size { (length routes.old ≡ slot_count sides.height sides.width) × (length routes.old ≤ length marks.old) }
    requires clear { Clear marks.old (length routes.old) }
    ensures starts { SameStarts routes.old routes.new }
    ensures assigned { MatchResult result (λ _. Assigned (R.Rule.meaning rule.now) (plan_on sides routes.new)) (λ _. Blocked (R.Rule.meaning rule.now) (slot_count sides.height sides.width)) }
    ensures refused { OnErr result (routes.new ≡ routes.old) }
    ensures marks { marks.new ≡ marks.old }
{
    // Kept as it is: the search allocates nothing, so its tables are local arrays, here with a place for each slot.
    let mut assignment = [0; GREATEST_SLOTS];
    let mut block = [0; GREATEST_SLOTS];
    let mut entries = [Entry::default(); GREATEST_SLOTS];
    let mut work = WorkList::over(&mut entries);
    let n = routes.len();
    let mut tables = Tables {
        block: &mut block[..n],
        marks,
        work: &mut work,
    };
    assign_in(rule, sides, routes, &mut assignment[..n], &mut tables)
}
