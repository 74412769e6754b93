ghost use Rattle.std.specs.Prelude.{◌≡◌};
ghost use Rattle.orderfile.specs.RuleNames.{Names, rule_name_number, entry_size};

use crate::fault::OrderFault;

// The rule that a record names. Each is its number there.
#[derive(Clone, Copy, Debug, PartialEq, Eq)]
pub(crate) enum RuleName {
    Number = 1,
    Kind = 2,
}

impl TryFrom<u8> for RuleName {
    type Error = OrderFault;

    ghost try_from_gives = { Names };

    fn try_from(number: u8) -> Result<RuleName, OrderFault> {
        match number {
            1 => Ok(RuleName::Number),
            2 => Ok(RuleName::Kind),
            _ => Err(OrderFault::NoRule),
        }
    }
}

impl RuleName {
    pub(crate) fn number(self) -> u8
        ensures { result ≡ rule_name_number self }
    {
        self as u8
    }

    // How many bytes of its lists a record has for each slot.
    pub(crate) fn entry_size(self) -> usize
        ensures { result ≡ entry_size self }
    {
        match self {
            // a wanted carrier
            RuleName::Number => 2,
            // a kind and a mask
            RuleName::Kind => 3,
        }
    }
}
