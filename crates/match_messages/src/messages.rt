//! Messages as a player reads them.
ghost use Rattle.std.specs.Prelude.{◌≡◌};
ghost use Rattle.match_messages.specs.declared.messages.MessageFault.TheVariants.{Memory};

use game_core::Text;
use kif_text::Expr;
use std::alloc::{AllocError, AllocFailed};
use std::error::Error;
use std::fmt;

/// The content of a message. The role, the rules and the moves are in lower case; the id is unchanged. The moves are
/// those of the last turn, in the order of the roles, or `None` before the first turn.
#[derive(Drop)]
pub enum Message {
    Info,
    Start {
        id: Text,
        role: Expr,
        rules: Vec<Expr>,
        start: u32,
        play: u32,
    },
    Play {
        id: Text,
        moves: Option<Vec<Expr>>,
    },
    Stop {
        id: Text,
        moves: Option<Vec<Expr>>,
    },
    Abort {
        id: Text,
    },
}

/// Why a text is not a message. If several reasons apply, this is the first one.
#[derive(Clone, Copy, Debug, PartialEq, Eq)]
pub enum MessageFault {
    /// The text is not one expression within the limits of length and depth.
    Unreadable,
    /// The expression is not a message.
    BadMessage,
    /// A clock of START is not a number from 1 to 86,400.
    BadClock,
    /// Out of memory.
    Memory,
}

impl fmt::Display for MessageFault {
    fn fmt<W: fmt::Write>(&self, f: &mut fmt::Formatter<W>) -> fmt::Result {
        f.write_str(match *self {
            MessageFault::Unreadable => "the text is not one expression",
            MessageFault::BadMessage => "the expression is not a message",
            MessageFault::BadClock => "a clock is out of range",
            MessageFault::Memory => "out of memory",
        })
    }
}

impl Error for MessageFault {}

impl From<AllocError> for MessageFault {
    ghost from_gives = { λ _ fault. fault ≡ Memory };

    fn from(_: AllocError) -> MessageFault {
        MessageFault::Memory
    }
}

impl<T: Drop> From<AllocFailed<T>> for MessageFault {
    ghost from_gives = { λ _ fault. fault ≡ Memory };

    fn from(_: AllocFailed<T>) -> MessageFault {
        MessageFault::Memory
    }
}
