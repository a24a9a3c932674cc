//! Calls and their replies.
use crate::due::Due;
use crate::phase::Status;
use game_core::{Text, Texts};
use std::error::Error;
use std::fmt;

/// A call on the desk. Games and roles are numbered from 0. A call names a match by its id; ids are compared byte for byte.
#[derive(Drop)]
pub enum Call {
    /// Opens a match of a game. The clocks are in seconds, and the players are in the order of the roles. `strikes`
    /// replaced moves in a row retire a role; 0 means never.
    Open {
        id: Text,
        game: usize,
        start: u32,
        play: u32,
        strikes: u32,
        players: Texts,
    },
    /// Asks for the message that the match owes to a role.
    Next {
        id: Text,
        role: usize,
    },
    /// Gives a role's answer for a round.
    Submit {
        id: Text,
        role: usize,
        round: u64,
        text: Text,
    },
    /// Reports that a role has no answer for a round. If `broken`, its connection failed; otherwise no answer came in time.
    Miss {
        id: Text,
        role: usize,
        round: u64,
        broken: bool,
    },
    /// Asks for the status of a match.
    Query {
        id: Text,
    },
    /// Aborts a match.
    Abort {
        id: Text,
    },
}

/// The reply to a call.
#[derive(Drop)]
pub enum Reply {
    /// To `Open`.
    Opened,
    /// To `Next`.
    Due(Due),
    /// To `Submit` and `Miss`.
    Taken,
    /// To `Query`.
    Status(Status),
    /// To `Abort`.
    Aborting,
    /// The reply to any call that the desk refuses. A refused call does not change a match.
    Refused(Refusal),
}

/// Why the desk refuses a call: the first of these reasons that applies.
#[derive(Clone, Copy, Debug, PartialEq, Eq)]
pub enum Refusal {
    /// The id is not 1 to 64 bytes of ASCII letters, digits, `-`, `_` and `.`.
    BadId,
    /// Another match has this id.
    IdUsed,
    /// No game has this number.
    NoGame,
    /// The number of players is not the number of roles.
    WrongPlayers,
    /// A player's name breaks the rule for ids.
    BadName,
    /// A clock is not 1 to 86,400 seconds.
    BadClock,
    /// The number of strikes is above 255.
    BadStrikes,
    /// The desk has 1,024 matches.
    DeskFull,
    /// No match has this id.
    NoMatch,
    /// The match's game has no such role.
    NoRole,
    /// The match is finished or aborted.
    Over,
    /// The answer is for another round. The present round has this number.
    Stale(u64),
    /// The role has already answered this round.
    Twice,
    /// The match is already stopping, aborting or over.
    Ended,
}

impl fmt::Display for Refusal {
    fn fmt<W: fmt::Write>(&self, f: &mut fmt::Formatter<W>) -> fmt::Result {
        let words = match *self {
            Refusal::BadId => "the id is not lawful",
            Refusal::IdUsed => "the id is used",
            Refusal::NoGame => "there is no such game",
            Refusal::WrongPlayers => "there is not one player for each role",
            Refusal::BadName => "a player's name is not lawful",
            Refusal::BadClock => "a clock is out of range",
            Refusal::BadStrikes => "the number of strikes is out of range",
            Refusal::DeskFull => "the desk is full",
            Refusal::NoMatch => "there is no such match",
            Refusal::NoRole => "there is no such role",
            Refusal::Over => "the match is over",
            Refusal::Twice => "the role has answered this round",
            Refusal::Ended => "the match has come to its end",
            Refusal::Stale(round) => return write!(f, "the present round is {round}"),
        };
        f.write_str(words)
    }
}

impl Error for Refusal {}
