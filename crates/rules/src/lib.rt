// Rules: which carriers will do in which slot.
//
// For: orders, which bring a rule, and the planner, which is proved over any rule. Promises: a rule means a number of
// slots, a number of carriers, and for each slot and carrier whether it is admitted there; every reply is that
// meaning's, so it is the same however often it is asked. A rule may tell the class of a carrier: all of one class are admitted
// by the same slots. Rests on: nothing but std.
#![tactic(auto)]

pub mod any;
pub mod fault;
pub mod kind;
pub mod number;

ghost use Rattle.std.specs.Prelude.{◌≡◌, ℕ, MatchOption};
ghost use Rattle.rules.specs.Rules.{RuleView, Bounded, IsClass};

pub trait Rule {
    // What the rule means.
    ghost meaning: { Self → RuleView };

    // Outside its numbers a rule replies no.
    ghost bounded: { (r : Self) → Bounded (meaning r) };

    // The class of each carrier. The fewer classes, the faster an order is planned; each carrier may be one by itself.
    ghost classes: { Self → ℕ → ℕ } = { λ _ carrier. carrier };

    fn slots(&self) -> usize
        ensures { result ≡ (meaning self.now).slots };

    fn carriers(&self) -> usize
        ensures { result ≡ (meaning self.now).carriers };

    // Whether the carrier will do in the slot.
    fn admits(&self, slot: usize, carrier: usize) -> bool
        ensures { result ≡ (meaning self.now).admits slot carrier };

    // The class of a carrier, if it is known that all of that class are admitted by the same slots.
    fn class(&self, carrier: usize) -> Option<usize>
        ensures { MatchOption result (Unit {0}) (λ c. IsClass (meaning self.now) (classes self.now) carrier c) }
    {
        None
    }
}
