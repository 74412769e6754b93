// Orders.
ghost use Rattle.std.specs.Prelude.{◌≡◌, ℕ, ◌+◌, ◌<◌, min, length, OnErr, MatchResult};
ghost use Rattle.grid.specs.Sides.{slot_count};
ghost use Rattle.motion.specs.Carrying.{Good};
ghost use Rattle.course.specs.Routes.{route_at, plan_of};
ghost use Rattle.chain.specs.Calls.{AtRest, Clean, RuleFor, OrderRefused, Ordered};
ghost use Rattle.floor.specs.Asking.{MayOrder};
ghost use Rattle.floor.specs.Shown.{shown};
ghost use Rattle.floor.specs.Telling.{Tells};
ghost use Rattle.floor.specs.Present.{present};

use super::each::write_each;
use super::{Floor, NOWHERE};
use chain::fault::FloorFault;
use course::route::Route;
use course::stage::Stages;
use deck::Deck;
use grid::sides::GREATEST_SLOTS;
use grid::slot::Slot;
use plan::make::make_plan;
use rules::Rule;

// Whether all marks are zero.
fn are_clean(marks: &[u8]) -> bool
    ensures { Tells result (Clean marks.now (length marks.now)) }
{
    // Kept as it is: the project fixes this form, a loop over the elements of the lent marks (docs/DECISIONS.md).
    for mark in marks {
        if *mark != 0 {
            return false;
        }
    }
    true
}

// Whether the rule is for so many slots and carriers.
fn is_for<R: Rule>(rule: &R, slots: usize) -> bool
    ensures { Tells result (RuleFor slots (R.Rule.meaning rule.now)) }
{
    rule.slots() == slots && rule.carriers() == slots
}

// Where a carrier is, at rest.
fn present_slot(route: &Route, done: usize) -> Slot
    ensures { result ≡ present done route.now }
{
    if done == 0 { route.start } else { route.goal }
}

// Writes routes that start where the carriers are.
fn write_starts(routes: &[Route], done: usize, starts: &mut [Route])
    requires { length starts.old ≡ length routes.now }
    ensures { (c : ℕ) → c < length routes.now → (route_at starts.new c).start ≡ present done (route_at routes.now c) }
{
    let start = |route: &Route| Route {
        start: present_slot(route, done),
        ..NOWHERE
    };
    write_each(routes, starts, start);
}

impl Floor {
    // Whether the steps done are none or all.
    fn is_at_rest(&self) -> bool
        ensures { Tells result (AtRest (shown self.now)) }
    {
        self.steps_done == 0 || self.steps_done == self.stages.total()
    }

    // Asks an order's questions in turn, and refuses by the first that is answered no.
    fn may_order<D: Deck, R: Rule>(
        &self,
        deck: &D,
        rule: &R,
        marks: &[u8],
    ) -> Result<(), FloorFault>
        ensures { MatchResult result (λ _. MayOrder (shown self.now) (D.Deck.view deck.now) (R.Rule.meaning rule.now) marks.now) (OrderRefused (shown self.now) (D.Deck.view deck.now) (R.Rule.meaning rule.now) marks.now) }
    {
        if !self.is_at_rest() {
            return Err(FloorFault::Unfinished);
        }
        let slots = self.sides.slots();
        if marks.len() < slots {
            return Err(FloorFault::FewMarks);
        }
        if !are_clean(&marks[..slots]) {
            return Err(FloorFault::DirtyMarks);
        }
        if !self.stands(deck) {
            return Err(FloorFault::Astray);
        }
        if !is_for(rule, slots) {
            return Err(FloorFault::WrongRule);
        }
        Ok(())
    }

    // Takes a new plan.
    fn take_on(&mut self, routes: &[Route])
        requires long { length routes.now ≡ slot_count self.old.sides.height self.old.sides.width }
        requires good { Good (plan_of self.old.sides.height self.old.sides.width routes.now) }
        ensures sides { self.new.sides ≡ self.old.sides }
        ensures routes { self.new.routes.items ≡ routes.now }
        ensures done { self.new.steps_done ≡ 0 }
        ensures orders { self.new.orders ≡ min (self.old.orders + 1) 65535 }
    {
        self.routes.copy_from_slice(routes);
        self.stages = Stages::of(routes);
        self.steps_done = 0;
        self.orders = self.orders.saturating_add(1);
    }

    // Plans how the carriers get from where they are to slots that the rule admits them to, and answers how many steps
    // that takes. The marks lend the planner room; it leaves them as found.
    pub fn order<D: Deck, R: Rule>(
        &mut self,
        deck: &D,
        rule: &R,
        marks: &mut [u8],
    ) -> Result<usize, FloorFault>
        ensures ordered { Ordered (shown self.old) (D.Deck.view deck.now) (R.Rule.meaning rule.now) marks.old result (shown self.new) }
        ensures refused { OnErr result (self.new ≡ self.old) }
        ensures marks { marks.new ≡ marks.old }
    {
        self.may_order(deck, rule, marks)?;
        let mut all = [NOWHERE; GREATEST_SLOTS];
        let routes = &mut all[..self.sides.slots()];
        write_starts(&self.routes, self.steps_done, routes);
        // Kept as it is: by `map_err(..)?` both exits stayed open, at each of which the plan's answer was to be taken out anew.
        let Ok(()) = make_plan(rule, self.sides, routes, marks) else {
            return Err(FloorFault::Unfillable);
        };
        self.take_on(routes);
        Ok(self.stages.total())
    }
}
