ghost use Rattle.std.specs.Prelude.{◌≡◌, ℕ, ◌<◌, length, vec_len, MatchBool, MatchOption};
ghost use Rattle.rules.specs.Entries.{GoodKinds};
ghost use Rattle.rules.specs.Rules.{IsClass};
ghost use Rattle.rules.specs.KindRule.{KindMade, has_bit, kind_meaning, kind_bounded, kind_class};

use crate::Rule;
use crate::any::AnyRule;
use crate::fault::RuleFault;
use crate::kind::{KINDS, KindRule};

// Whether each kind is one of the kinds that there are.
pub fn all_kinds_exist(kinds: &[u8]) -> bool
    ensures { MatchBool result (GoodKinds kinds.now) (GoodKinds kinds.now → ⊥) }
{
    kinds.iter().all(|kind| *kind < KINDS)
}

// Whether the mask's bit of a kind is one.
fn has_bit(mask: u16, kind: u8) -> bool
    requires { kind < 16 }
    ensures { result ≡ has_bit mask kind }
{
    (mask >> kind) % 2 == 1
}

impl KindRule {
    // The rule of these kinds, by carrier, and masks, by slot.
    pub fn new(kinds: Vec<u8>, masks: Vec<u16>) -> Result<KindRule, RuleFault>
        ensures { KindMade kinds.items masks.items result }
    {
        if !all_kinds_exist(&kinds) {
            return Err(RuleFault::BadEntry);
        }
        Ok(KindRule { kinds, masks })
    }

    // The kinds, by carrier.
    pub fn kinds(&self) -> &[u8]
        ensures { result.now ≡ self.now.kinds.items }
    {
        &self.kinds
    }

    // The masks, by slot.
    pub fn masks(&self) -> &[u16]
        ensures { result.now ≡ self.now.masks.items }
    {
        &self.masks
    }
}

impl From<KindRule> for AnyRule {
    ghost use Rattle.rules.specs.declared.any.AnyRule.TheVariants.{Kind};

    ghost from_gives = { λ rule either. either ≡ Kind rule };

    fn from(rule: KindRule) -> AnyRule {
        AnyRule::Kind(rule)
    }
}

impl Rule for KindRule {
    ghost meaning = { kind_meaning };

    ghost bounded = { kind_bounded };

    ghost classes = { kind_class };

    fn slots(&self) -> usize {
        self.masks.len()
    }

    fn carriers(&self) -> usize {
        self.kinds.len()
    }

    fn admits(&self, slot: usize, carrier: usize) -> bool {
        match (self.masks.get(slot), self.kinds.get(carrier)) {
            (Some(mask), Some(kind)) => has_bit(*mask, *kind),
            _ => false,
        }
    }

    fn class(&self, carrier: usize) -> Option<usize>
        ensures known { MatchOption result (Unit {0}) (λ c. IsClass (kind_meaning self.now) (kind_class self.now) carrier c) }
        ensures told { result ≡ Some (kind_class self.now carrier) }
    {
        let kind = self.kinds.get(carrier).copied().unwrap_or(KINDS);
        Some(usize::from(kind))
    }
}
