ghost use Rattle.std.specs.Prelude.{◌≡◌};
ghost use Rattle.rules.specs.Faults.{rule_fault_number};

// Why a rule is not made. Each is its number.
#[derive(Clone, Copy, Debug, PartialEq, Eq)]
pub enum RuleFault {
    BadEntry = 35,
}

impl RuleFault {
    pub fn number(self) -> u8
        ensures { result ≡ rule_fault_number self }
    {
        self as u8
    }
}
