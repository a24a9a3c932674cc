//! The phase of a match, and why a match is aborted.
ghost use Rattle.std.specs.Prelude.{◌≡◌};
ghost use Rattle.match_book.specs.Phase.{phase_in, cause_in};

use desk_calls::Phase;

/// Why a match is aborted. Roles are numbered from 0.
#[derive(Clone, Copy, PartialEq, Eq)]
pub enum Cause {
    /// The referee asked for the abort.
    Asked,
    /// This role has no legal move in a state that is not terminal. It is the lowest such role.
    NoLegal(usize),
    /// This role does not have exactly one goal in a terminal state. It is the lowest such role.
    NoGoal(usize),
    /// The game had not ended after 10,000 turns.
    TooLong,
    /// Every role is retired.
    AllRetired,
}

/// The stage of a match. It does not depend on whether every role has answered STOP or ABORT.
#[derive(Clone, Copy)]
pub enum Stage {
    Starting,
    Playing,
    Stopping,
    Aborting(Cause),
}

impl Stage {
    /// The phase. `all_ended` says whether all end marks are present.
    pub fn phase(self, all_ended: bool) -> Phase
        ensures { result ≡ phase_in self all_ended }
    {
        match self {
            Stage::Starting => Phase::Starting,
            Stage::Playing => Phase::Playing,
            Stage::Stopping if all_ended => Phase::Finished,
            Stage::Stopping => Phase::Stopping,
            Stage::Aborting(_) if all_ended => Phase::Aborted,
            Stage::Aborting(_) => Phase::Aborting,
        }
    }

    /// Why the match is aborted, if it is.
    pub fn cause(self) -> Option<Cause>
        ensures { result ≡ cause_in self }
    {
        match self {
            Stage::Aborting(cause) => Some(cause),
            _ => None,
        }
    }
}
