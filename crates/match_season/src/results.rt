//! The results of matches, which the threads of a season send.
ghost use Rattle.std.specs.Prelude.{ℕ, List};
ghost use Rattle.std.specs.Result.{ForOk};

use crate::written::Written;
use crossbeam_channel::Receiver;
use match_play::{EndedMatch, MatchFault};
use std::marker::{Brand, PhantomData};
use std::sync::Wait;

/// Names the outputs of one season. A contract cannot name the values that another thread sends, so each season chooses
/// a separate brand.
pub trait OutputBrand {
    /// The text is the output of the match with this index in the schedule.
    ghost is_output: { ℕ → List ℕ → Type 0 };
}

impl OutputBrand for Brand {
    ghost use Rattle.std.specs.Prelude.{⊤};

    ghost is_output = { λ place text. ⊤ };
}

/// The result of the match with this index in the schedule: its output, or the reason why it has no record.
#[derive(Drop)]
pub struct MatchResult<N: OutputBrand> {
    pub place: usize,
    pub outcome: Result<EndedMatch, MatchFault>,
    pub of: PhantomData<N>,
    ghost is_output: { ForOk outcome (λ ended. ∥ N.is_output place ended.text ∥₁) },
}

/// Receives the results that the threads send.
#[derive(Drop)]
pub struct Results<'r, N: OutputBrand> {
    pub receiver: &'r Receiver<MatchResult<N>>,
    /// Whether all senders are gone and no more results can come. In a season this never happens, because the season
    /// keeps a sender until its end.
    pub is_closed: bool,
}

impl<N: OutputBrand> Results<'_, N> {
    ghost use Rattle.std.specs.Prelude.{IfNone};
    ghost use Rattle.match_season.specs.Seasons.{HasAll};

    /// Waits for the next result. Returns `None` if all matches are settled, or if no more results can come.
    pub fn next<R: Wait>(&mut self, rt: &R, written: &Written) -> Option<MatchResult<N>>
        ensures { IfNone result (HasAll self.new.is_closed written.now) }
    {
        if written.is_complete() {
            return None;
        }
        let next = self.receiver.recv(rt).ok();
        self.is_closed = next.is_none();
        next
    }
}
