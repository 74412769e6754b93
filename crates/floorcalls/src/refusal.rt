// Why a call is not carried out, as it is answered.
use chain::fault::FloorFault;
use deck::fault::DeckFault;
use decklists::fault::BuildFault;
use rules::fault::RuleFault;
use std::alloc::AllocError;
use std::fmt;

#[derive(Drop)]
pub(crate) enum Refusal {
    Malformed,
    NoDeck,
    NoFloor,
    // These are answered by their numbers.
    Build(BuildFault),
    Deck(DeckFault),
    Floor(FloorFault),
    Rule(RuleFault),
    // There is no memory for the answer itself.
    Unanswered(AllocError),
}

impl From<AllocError> for Refusal {
    fn from(error: AllocError) -> Refusal {
        Refusal::Unanswered(error)
    }
}

impl From<BuildFault> for Refusal {
    fn from(fault: BuildFault) -> Refusal {
        Refusal::Build(fault)
    }
}

impl From<DeckFault> for Refusal {
    fn from(fault: DeckFault) -> Refusal {
        Refusal::Deck(fault)
    }
}

impl From<FloorFault> for Refusal {
    fn from(fault: FloorFault) -> Refusal {
        Refusal::Floor(fault)
    }
}

impl From<RuleFault> for Refusal {
    fn from(fault: RuleFault) -> Refusal {
        Refusal::Rule(fault)
    }
}

impl fmt::Display for Refusal {
    fn fmt<W: fmt::Write>(&self, f: &mut fmt::Formatter<W>) -> fmt::Result {
        match self {
            Refusal::Malformed => f.write_str("malformed"),
            Refusal::NoDeck => f.write_str("no deck"),
            Refusal::NoFloor => f.write_str("no floor"),
            Refusal::Build(fault) => write!(f, "refused {}", fault.number()),
            Refusal::Deck(fault) => write!(f, "refused {}", fault.number()),
            Refusal::Floor(fault) => write!(f, "refused {}", fault.number()),
            Refusal::Rule(fault) => write!(f, "refused {}", fault.number()),
            Refusal::Unanswered(_) => f.write_str("no memory"),
        }
    }
}
