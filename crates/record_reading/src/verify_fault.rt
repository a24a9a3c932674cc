//! Why a text is not a lawful record.
ghost use Rattle.std.specs.Prelude.{◌≡◌};
ghost use Rattle.record_reading.specs.declared.verify_fault.VerifyFault.TheVariants.{Memory};

use crate::record_parts::Key;
use std::alloc::{AllocError, AllocFailed};
use std::error::Error;
use std::fmt;

/// Why a text is not a lawful record of the game: the first test that fails. The shape of the whole text is tested first,
/// then the turns in order, then the goals and the end. Turns and roles are numbered from 0.
#[derive(Clone, Copy, PartialEq, Eq)]
pub enum VerifyFault {
    /// The text is not JSON.
    NotJson,
    /// The first key, in the order of `Key`, that is missing or has a value of the wrong shape. If all values have the
    /// right shape: `Errors` if it does not have as many turns as `Moves`, or else `States` if it does not have one state
    /// more than there are turns.
    BadShape(Key),
    /// The role's move in this turn is not legal.
    Illegal(usize, usize),
    /// The role's move in this turn has an error, but the move is not the role's first legal move, or the error names a
    /// legal move.
    NotFirst(usize, usize),
    /// The error of the role's move in this turn says that the role is retired, but the earlier turns do not retire it. Or
    /// the earlier turns retire the role, and the error does not say so.
    WrongRetired(usize, usize),
    /// The state after this many turns is not the state of the game.
    WrongState(usize),
    /// The goals are not those of the last state.
    WrongGoals,
    /// A turn follows although the game has ended or all roles are retired. Or the phase, the cause, the marks and the last
    /// state do not agree.
    WrongEnd,
    /// Out of memory.
    Memory,
}

/// The text that messages use, for example `shape KEY` or `state T`.
impl fmt::Display for VerifyFault {
    ghost use Rattle.std.specs.Prelude.{Some};
    ghost use Rattle.record_reading.specs.FaultText.{fault_text};

    ghost output = { λ fault. Some (fault_text fault) };

    fn fmt<W: fmt::Write>(&self, f: &mut fmt::Formatter<W>) -> fmt::Result {
        match *self {
            VerifyFault::NotJson => f.write_str("json"),
            VerifyFault::BadShape(key) => write!(f, "shape {}", key.text()),
            VerifyFault::Illegal(turn, role) => write!(f, "illegal {turn} {role}"),
            VerifyFault::NotFirst(turn, role) => write!(f, "notfirst {turn} {role}"),
            VerifyFault::WrongRetired(turn, role) => write!(f, "retired {turn} {role}"),
            VerifyFault::WrongState(turn) => write!(f, "state {turn}"),
            VerifyFault::WrongGoals => f.write_str("goals"),
            VerifyFault::WrongEnd => f.write_str("end"),
            VerifyFault::Memory => f.write_str("want of memory"),
        }
    }
}

/// Writes the same text as `Display`.
impl fmt::Debug for VerifyFault {
    fn fmt<W: fmt::Write>(&self, f: &mut fmt::Formatter<W>) -> fmt::Result {
        fmt::Display::fmt(self, f)
    }
}

impl Error for VerifyFault {}

impl From<AllocError> for VerifyFault {
    ghost from_gives = { λ _ fault. fault ≡ Memory };

    fn from(_: AllocError) -> VerifyFault {
        VerifyFault::Memory
    }
}

impl<T: Drop> From<AllocFailed<T>> for VerifyFault {
    ghost from_gives = { λ _ fault. fault ≡ Memory };

    fn from(_: AllocFailed<T>) -> VerifyFault {
        VerifyFault::Memory
    }
}
