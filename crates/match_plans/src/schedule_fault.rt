//! Why a schedule is refused.

use std::alloc::{AllocError, AllocFailed};
use thiserror::Error;

/// The error of a text line of a schedule. The words of the text line must be `ID START PLAY NAME@HOST:PORT ..`. Words
/// are counted from 1.
#[derive(Clone, Copy, Debug, PartialEq, Eq, Error)]
pub enum LineFault {
    #[error("fewer than four words")]
    TooFewWords,
    /// The id is not UTF-8 text.
    #[error("word 1 is not UTF-8")]
    NoId,
    /// START or PLAY is not a number up to 4,294,967,295 in digits without leading zeros.
    #[error("word {0} is not a number of seconds")]
    NoClock(u64),
    /// A player's word is not a lawful name with a host and a port.
    #[error("word {0} is not of the form NAME@HOST:PORT")]
    NoPlayer(u64),
    /// The number of players is not the number of roles.
    #[error("not one player for each role")]
    WrongPlayers,
    /// An earlier match has this id.
    #[error("an id twice")]
    IdTwice,
    /// `MAX_SCHEDULED` matches come before this one.
    #[error("too many matches")]
    TooMany,
}

/// The error of a schedule.
#[derive(Clone, Copy, Debug, PartialEq, Eq, Error)]
pub enum ScheduleFault {
    /// The number of the first bad text line, counted from 1, and its error.
    #[error("line {0}: {1}")]
    BadLine(u64, LineFault),
    #[error("out of memory")]
    Memory,
}

impl From<AllocError> for ScheduleFault {
    ghost use Rattle.std.specs.Prelude.{◌≡◌};
    ghost use Rattle.match_plans.specs.declared.schedule_fault.ScheduleFault.TheVariants.{Memory};

    ghost from_gives = { λ _ given. given ≡ Memory };

    fn from(_: AllocError) -> ScheduleFault {
        ScheduleFault::Memory
    }
}

impl<T: Drop> From<AllocFailed<T>> for ScheduleFault {
    ghost use Rattle.std.specs.Prelude.{◌≡◌};
    ghost use Rattle.match_plans.specs.declared.schedule_fault.ScheduleFault.TheVariants.{Memory};

    ghost from_gives = { λ _ given. given ≡ Memory };

    fn from(_: AllocFailed<T>) -> ScheduleFault {
        ScheduleFault::Memory
    }
}
