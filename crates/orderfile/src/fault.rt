ghost use Rattle.std.specs.Prelude.{◌≡◌};
ghost use Rattle.orderfile.specs.Faults.{order_fault_number};
ghost use Rattle.orderfile.specs.declared.fault.OrderFault.TheVariants.{BadEntry, NoMemory};

use rules::fault::RuleFault;
use std::alloc::AllocError;

// Why an order record is not read or not written. Each is its number.
#[derive(Clone, Copy, Debug, PartialEq, Eq)]
pub enum OrderFault {
    BadSides = 1,
    BadLength = 31,
    BadMark = 32,
    BadVersion = 33,
    NoRule = 34,
    BadEntry = 35,
    NoRoom = 36,
    NoMemory = 47,
}

impl OrderFault {
    pub fn number(self) -> u8
        ensures { result ≡ order_fault_number self }
    {
        self as u8
    }
}

impl From<RuleFault> for OrderFault {
    ghost from_gives = { λ _ fault. fault ≡ BadEntry };

    fn from(fault: RuleFault) -> OrderFault {
        match fault {
            RuleFault::BadEntry => OrderFault::BadEntry,
        }
    }
}

impl From<AllocError> for OrderFault {
    ghost from_gives = { λ _ fault. fault ≡ NoMemory };

    fn from(_error: AllocError) -> OrderFault {
        OrderFault::NoMemory
    }
}
