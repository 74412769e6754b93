ghost use Rattle.std.specs.Prelude.{◌≡◌};
ghost use Rattle.chain.specs.declared.fault.FloorFault.TheVariants.{NoMemory};
ghost use Rattle.scripting.specs.Refusals.{refusal_number};
ghost use Rattle.scripting.specs.declared.refusal.Refusal.TheVariants.{Record, Deck, Floor};

use chain::fault::FloorFault;
use decklists::fault::BuildFault;
use orderfile::fault::OrderFault;
use std::alloc::AllocError;

// Why a record has no script but the line of a refusal.
#[derive(Clone, Copy)]
pub(crate) enum Refusal {
    // No order can be read from it.
    Record(OrderFault),
    // No deck is made for the order.
    Deck(BuildFault),
    // The floor refuses it, or there is no memory to carry it out.
    Floor(FloorFault),
}

impl Refusal {
    pub(crate) fn number(self) -> u8
        ensures { result ≡ refusal_number self }
    {
        match self {
            Refusal::Record(fault) => fault.number(),
            Refusal::Deck(fault) => fault.number(),
            Refusal::Floor(fault) => fault.number(),
        }
    }
}

impl From<OrderFault> for Refusal {
    ghost from_gives = { λ fault refusal. refusal ≡ Record fault };

    fn from(fault: OrderFault) -> Refusal {
        Refusal::Record(fault)
    }
}

impl From<BuildFault> for Refusal {
    ghost from_gives = { λ fault refusal. refusal ≡ Deck fault };

    fn from(fault: BuildFault) -> Refusal {
        Refusal::Deck(fault)
    }
}

impl From<FloorFault> for Refusal {
    ghost from_gives = { λ fault refusal. refusal ≡ Floor fault };

    fn from(fault: FloorFault) -> Refusal {
        Refusal::Floor(fault)
    }
}

impl From<AllocError> for Refusal {
    ghost from_gives = { λ _ refusal. refusal ≡ Floor NoMemory };

    fn from(_error: AllocError) -> Refusal {
        Refusal::Floor(FloorFault::NoMemory)
    }
}
