//! The mark that a match stores for an answer outside of play, and why a match refuses an answer.
ghost use Rattle.std.specs.Prelude.{◌≡◌};
ghost use Rattle.match_book.specs.declared.answer.AnswerFault.TheVariants.{Memory};
ghost use Rattle.match_book.specs.Marks.{mark_of, mark_text};
ghost use Rattle.desk_calls.specs.Answers.{answer_lent};
ghost use Rattle.match_book.specs.Steps.{fault_of};

use desk_calls::LentAnswer;
use std::alloc::AllocError;
use std::error::Error;
use std::fmt;

/// The mark that a match stores for an answer to START, STOP or ABORT. The text of the answer does not matter.
#[derive(Clone, Copy)]
pub enum Mark {
    /// The player answered.
    Clear,
    TimeOut,
    ConnectionError,
}

/// Why a match refuses an answer: the first of these reasons that applies. A refused answer changes nothing.
#[derive(Clone, Copy)]
pub enum AnswerRefusal {
    /// The game has no such role.
    NoRole,
    /// The match is finished or aborted.
    Over,
    /// The answer is for another round. The present round has this number.
    Stale(u64),
    /// The role has already answered this round.
    Twice,
}

/// Why a match does not take an answer: it refuses the answer, or an allocation is refused. In both cases nothing changes.
#[derive(Clone, Copy, Debug, PartialEq, Eq)]
pub enum AnswerFault {
    /// The game has no such role.
    NoRole,
    /// The match is finished or aborted.
    Over,
    /// The answer is for another round. The present round has this number.
    Stale(u64),
    /// The role has already answered this round.
    Twice,
    /// Out of memory.
    Memory,
}

impl fmt::Display for AnswerFault {
    fn fmt<W: fmt::Write>(&self, f: &mut fmt::Formatter<W>) -> fmt::Result {
        let words = match *self {
            AnswerFault::NoRole => "there is no such role",
            AnswerFault::Over => "the match is over",
            AnswerFault::Twice => "the role has answered this round",
            AnswerFault::Memory => "out of memory",
            AnswerFault::Stale(round) => return write!(f, "the present round is {round}"),
        };
        f.write_str(words)
    }
}

impl Error for AnswerFault {}

impl From<AnswerRefusal> for AnswerFault {
    ghost from_gives = { λ refusal fault. fault ≡ fault_of refusal };

    fn from(refusal: AnswerRefusal) -> AnswerFault {
        match refusal {
            AnswerRefusal::NoRole => AnswerFault::NoRole,
            AnswerRefusal::Over => AnswerFault::Over,
            AnswerRefusal::Stale(round) => AnswerFault::Stale(round),
            AnswerRefusal::Twice => AnswerFault::Twice,
        }
    }
}

impl From<AllocError> for AnswerFault {
    ghost from_gives = { λ _ fault. fault ≡ Memory };

    fn from(_: AllocError) -> AnswerFault {
        AnswerFault::Memory
    }
}

/// Why a match refuses an abort.
#[derive(Clone, Copy, Debug, PartialEq, Eq)]
pub enum AbortFault {
    /// The match is already stopping, aborting or over.
    Ended,
}

impl fmt::Display for AbortFault {
    fn fmt<W: fmt::Write>(&self, f: &mut fmt::Formatter<W>) -> fmt::Result {
        f.write_str(match *self {
            AbortFault::Ended => "the match has come to its end",
        })
    }
}

impl Error for AbortFault {}

impl Mark {
    pub(crate) fn of(answer: &LentAnswer<'_>) -> Mark
        ensures { result ≡ mark_of (answer_lent answer.now) }
    {
        match answer {
            LentAnswer::Text(_) => Mark::Clear,
            LentAnswer::Silent => Mark::TimeOut,
            LentAnswer::Broken => Mark::ConnectionError,
        }
    }

    /// The mark as text, for the match's record.
    pub fn text(self) -> &'static [u8]
        ensures { result.now ≡ mark_text self }
    {
        match self {
            Mark::Clear => b"",
            Mark::TimeOut => b"TO",
            Mark::ConnectionError => b"CE",
        }
    }
}
