//! The phases of a match.
ghost use Rattle.std.specs.Prelude.{◌≡◌};
ghost use Rattle.desk_calls.specs.Phases.{is_last, phase_text};

/// The progress of a match.
#[derive(Clone, Copy, PartialEq, Eq)]
pub enum Phase {
    /// Some role has not answered START.
    Starting,
    /// The roles play turns.
    Playing,
    /// The game has ended, but some role has not answered STOP.
    Stopping,
    /// The game has ended, and every role has answered STOP.
    Finished,
    /// The match is being aborted, but some role has not answered ABORT.
    Aborting,
    /// The match was aborted, and every role has answered ABORT.
    Aborted,
}

/// The reply to a query of a match.
#[derive(Clone, Copy, PartialEq, Eq)]
pub struct Status {
    pub phase: Phase,
    /// 0 while the match is starting; after that, the number of recorded turns plus one. A requested abort adds one; if
    /// some role has not answered START, it makes the round 1.
    pub round: u64,
    /// The number of recorded turns.
    pub turns: u64,
    /// The number of recorded moves that were replaced, including those of retired roles.
    pub substitutions: u64,
}

impl Phase {
    /// Whether the match is over.
    pub fn is_last(self) -> bool
        ensures { result ≡ is_last self }
    {
        matches!(self, Phase::Finished | Phase::Aborted)
    }
}

/// The phase's word in replies and records.
pub fn phase_text(phase: Phase) -> &'static [u8]
    ensures { result.now ≡ phase_text phase }
{
    match phase {
        Phase::Starting => b"starting",
        Phase::Playing => b"playing",
        Phase::Stopping => b"stopping",
        Phase::Finished => b"finished",
        Phase::Aborting => b"aborting",
        Phase::Aborted => b"aborted",
    }
}
