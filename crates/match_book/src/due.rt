//! The error of `Match::owed`.
ghost use Rattle.std.specs.Prelude.{◌≡◌};
ghost use Rattle.match_book.specs.declared.due.OwedFault.TheVariants.{Memory};

use std::alloc::AllocError;
use std::error::Error;
use std::fmt;

/// Why `owed` fails.
#[derive(Clone, Copy, Debug, PartialEq, Eq)]
pub enum OwedFault {
    /// The game has no such role.
    NoRole,
    /// Out of memory.
    Memory,
}

impl fmt::Display for OwedFault {
    fn fmt<W: fmt::Write>(&self, f: &mut fmt::Formatter<W>) -> fmt::Result {
        f.write_str(match *self {
            OwedFault::NoRole => "there is no such role",
            OwedFault::Memory => "out of memory",
        })
    }
}

impl Error for OwedFault {}

impl From<AllocError> for OwedFault {
    ghost from_gives = { λ _ fault. fault ≡ Memory };

    fn from(_: AllocError) -> OwedFault {
        OwedFault::Memory
    }
}
