//! One match of the desk.
ghost use Rattle.std.specs.Prelude.{◌≡◌, false, None, IfOk, OnErr, OnOk};
ghost use Rattle.desk_calls.specs.Answers.{answer_lent};
ghost use Rattle.match_book.specs.Steps.{refusal, after_answer, after_abort, MayWantMemory};
ghost use Rattle.match_desk.specs.Memory.{CarriesTexts};
ghost use Rattle.match_desk.specs.Steps.{next_reply, answer_reply, query_reply, abort_reply, missed, is_refused};

use desk_calls::{LentAnswer, Phase, Refusal, Reply};
use game_core::Game;
use match_book::{AnswerRefusal, Match, OwedFault};
use std::alloc::{AllocError, Global};

/// A match, and the number of its game.
#[derive(Drop)]
pub struct Slot<G: Game> {
    pub game: usize,
    pub held: Match<G>,
}

/// The reply to `Next`.
pub fn next_reply<G: Game>(
    alloc: Global,
    game: &G,
    held: &Match<G>,
    role: usize,
) -> Result<Reply, AllocError>
    requires { held.now.game ≡ game.now }
    ensures reply { IfOk result (λ r. r ≡ next_reply role (G.rules game.now) held.now.value) }
    ensures accepted { OnErr result (is_refused (next_reply role (G.rules game.now) held.now.value) ≡ false) }
    ensures memory { OnErr result (CarriesTexts (next_reply role (G.rules game.now) held.now.value)) }
{
    match held.owed(alloc, game, role) {
        Ok(due) => Ok(Reply::Due(due)),
        Err(OwedFault::NoRole) => Ok(Reply::Refused(Refusal::NoRole)),
        Err(OwedFault::Memory) => Err(AllocError),
    }
}

/// The reply to an answer.
pub fn answer_reply<G: Game>(held: &Match<G>, role: usize, round: u64) -> Reply
    ensures { result ≡ answer_reply role round (G.rules held.now.game) held.now.value }
{
    let refusal = match held.refusal(role, round) {
        None => return Reply::Taken,
        Some(AnswerRefusal::NoRole) => Refusal::NoRole,
        Some(AnswerRefusal::Over) => Refusal::Over,
        Some(AnswerRefusal::Stale(now)) => Refusal::Stale(now),
        Some(AnswerRefusal::Twice) => Refusal::Twice,
    };
    Reply::Refused(refusal)
}

/// The reply to `Query`.
pub fn query_reply<G: Game>(held: &Match<G>) -> Reply
    ensures { result ≡ query_reply (G.rules held.now.game) held.now.value }
{
    Reply::Status(held.status())
}

/// The reply to `Abort`.
pub fn abort_reply<G: Game>(held: &Match<G>) -> Reply
    ensures { result ≡ abort_reply (G.rules held.now.game) held.now.value }
{
    match held.status().phase {
        Phase::Starting | Phase::Playing => Reply::Aborting,
        _ => Reply::Refused(Refusal::Ended),
    }
}

/// Passes an answer to the match. If the match refuses the answer, it stays unchanged, and the result is `Ok`.
pub fn take_answer<G: Game>(
    alloc: Global,
    game: &G,
    held: &mut Match<G>,
    role: usize,
    round: u64,
    given: &LentAnswer<'_>,
) -> Result<(), AllocError>
    requires { held.old.game ≡ game.now }
    ensures game { held.new.game ≡ held.old.game }
    ensures ok { OnOk result (held.new.value ≡ after_answer (G.rules held.old.game) held.old.value role round (answer_lent given.now)) }
    ensures err { OnErr result (held.new ≡ held.old) }
    ensures accepted { OnErr result (refusal (G.rules held.old.game) held.old.value role round ≡ None) }
    ensures memory { OnErr result (MayWantMemory (G.rules held.old.game) held.old.value role) }
{
    let _ = held.offer(alloc, game, role, round, given)?;
    Ok(())
}

/// Aborts the match if it is neither stopping nor aborting.
pub fn take_abort<G: Game>(held: &mut Match<G>)
    ensures game { held.new.game ≡ held.old.game }
    ensures value { held.new.value ≡ after_abort (G.rules held.old.game) held.old.value }
{
    let _ = held.abort();
}

/// The answer that a `Miss` reports.
pub fn missed<'a>(broken: bool) -> LentAnswer<'a>
    ensures { answer_lent result ≡ missed broken }
{
    if broken {
        LentAnswer::Broken
    } else {
        LentAnswer::Silent
    }
}
