ghost use Rattle.std.specs.Prelude.{◌≡◌, ℕ, MatchOption};
ghost use Rattle.rules.specs.Rules.{IsClass};
ghost use Rattle.rules.specs.AnyRule.{any_meaning, any_bounded, any_class, any_told};

use crate::Rule;
use crate::kind::KindRule;
use crate::number::NumberRule;

// Either rule.
// Kept as it is: which rule it is shows when its record is read, and writing asks for it again, so each call matches on it.
#[derive(Drop)]
pub enum AnyRule {
    Number(NumberRule),
    Kind(KindRule),
}

impl Rule for AnyRule {
    ghost meaning = { any_meaning };

    ghost bounded = { any_bounded };

    ghost classes = { any_class };

    fn slots(&self) -> usize {
        match self {
            AnyRule::Number(rule) => rule.slots(),
            AnyRule::Kind(rule) => rule.slots(),
        }
    }

    fn carriers(&self) -> usize {
        match self {
            AnyRule::Number(rule) => rule.carriers(),
            AnyRule::Kind(rule) => rule.carriers(),
        }
    }

    fn admits(&self, slot: usize, carrier: usize) -> bool {
        match self {
            AnyRule::Number(rule) => rule.admits(slot, carrier),
            AnyRule::Kind(rule) => rule.admits(slot, carrier),
        }
    }

    fn class(&self, carrier: usize) -> Option<usize>
        ensures known { MatchOption result (Unit {0}) (λ c. IsClass (any_meaning self.now) (any_class self.now) carrier c) }
        ensures told { result ≡ any_told self.now carrier }
    {
        match self {
            AnyRule::Number(_) => None,
            AnyRule::Kind(rule) => rule.class(carrier),
        }
    }
}
