ghost use Rattle.std.specs.Prelude.{◌≡◌, Some};
ghost use Rattle.decklists.specs.declared.fault.BuildFault.TheVariants.{NoMemory};
ghost use Rattle.decklists.specs.Faults.{build_number, build_text};

use std::alloc::AllocError;
use std::error::Error;
use std::fmt;

// Why a deck is not made.
#[derive(Clone, Copy, PartialEq, Eq, Debug)]
pub enum BuildFault {
    BadSides = 1,
    NoMemory = 47,
}

impl BuildFault {
    pub fn number(self) -> u8
        ensures { result ≡ build_number self }
    {
        self as u8
    }
}

impl From<AllocError> for BuildFault {
    ghost from_gives = { λ _ r. r ≡ NoMemory };

    fn from(_e: AllocError) -> BuildFault {
        BuildFault::NoMemory
    }
}

impl fmt::Display for BuildFault {
    ghost output = { λ fault. Some (build_text fault) };

    fn fmt<W: fmt::Write>(&self, f: &mut fmt::Formatter<W>) -> fmt::Result {
        f.write_str(match self {
            BuildFault::BadSides => "a side is not from 1 to 16 cells",
            BuildFault::NoMemory => "there is no memory for the deck",
        })
    }
}

impl Error for BuildFault {}
