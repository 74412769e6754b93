ghost use Rattle.std.specs.Prelude.{◌≡◌, ℕ, ◌<◌, length, vec_len, MatchBool};
ghost use Rattle.rules.specs.Entries.{GoodWanted};
ghost use Rattle.rules.specs.NumberRule.{NumberMade, number_meaning, number_bounded};

use crate::Rule;
use crate::any::AnyRule;
use crate::fault::RuleFault;
use crate::number::NumberRule;

// Whether each wanted carrier is one of as many as there are slots.
pub fn all_wanted_exist(wanted: &[u16]) -> bool
    ensures { MatchBool result (GoodWanted wanted.now) (GoodWanted wanted.now → ⊥) }
{
    wanted
        .iter()
        .all(|carrier| usize::from(*carrier) < wanted.len())
}

impl NumberRule {
    // The rule of these wanted carriers, by slot.
    pub fn new(wanted: Vec<u16>) -> Result<NumberRule, RuleFault>
        ensures { NumberMade wanted.items result }
    {
        if !all_wanted_exist(&wanted) {
            return Err(RuleFault::BadEntry);
        }
        Ok(NumberRule { wanted })
    }

    // The wanted carriers, by slot.
    pub fn wanted(&self) -> &[u16]
        ensures { result.now ≡ self.now.wanted.items }
    {
        &self.wanted
    }
}

impl From<NumberRule> for AnyRule {
    ghost use Rattle.rules.specs.declared.any.AnyRule.TheVariants.{Number};

    ghost from_gives = { λ rule either. either ≡ Number rule };

    fn from(rule: NumberRule) -> AnyRule {
        AnyRule::Number(rule)
    }
}

impl Rule for NumberRule {
    ghost meaning = { number_meaning };

    ghost bounded = { number_bounded };

    fn slots(&self) -> usize {
        self.wanted.len()
    }

    fn carriers(&self) -> usize {
        self.wanted.len()
    }

    fn admits(&self, slot: usize, carrier: usize) -> bool {
        self.wanted
            .get(slot)
            .is_some_and(|wanted| usize::from(*wanted) == carrier)
    }
}
