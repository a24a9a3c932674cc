//! Checks the end of a record: goals, phase, cause and marks, given the last state.
ghost use Rattle.std.specs.Prelude.{◌≡◌, ◌<◌, ◌↔◌, IfOk, IsTrue, length};
ghost use Rattle.match_book.specs.Roles.{blank};
ghost use Rattle.record_check.specs.Replaying.{AreGoalsIn, AreGoalsOf};
ghost use Rattle.match_book.specs.Phase.{is_live};
ghost use Rattle.record_check.specs.Internal.ReplaySteps.{AgreesWith, IsEndAnswer, stage_by};

use desk_calls::Phase;
use game_core::Game;
use match_book::{Cause, Mark, Stage, are_all_there, settle};
use record_reading::RecordParts;
use std::alloc::{AllocError, Global};

/// Whether these are the game's goals in the state, one for each role.
fn are_goals_of<G: Game>(
    alloc: Global,
    game: &G,
    state: &G::State,
    goals: &[u8],
) -> Result<bool, AllocError>
    requires { (G.rules game.now).IsState state.now }
    ensures { IfOk result (λ b. IsTrue b ↔ AreGoalsOf (G.rules game.now) state.now goals.now) }
{
    if goals.len() != game.roles() {
        return Ok(false);
    }
    for (role, shown) in goals.iter().enumerate() {
        match game.goal(alloc, state, role)? {
            Some(goal) if goal == *shown => {}
            _ => return Ok(false),
        }
    }
    Ok(true)
}

/// Whether these are the goals of a match in this phase with this last state.
pub fn are_goals_in<G: Game>(
    alloc: Global,
    game: &G,
    phase: Phase,
    state: &G::State,
    goals: &[u8],
) -> Result<bool, AllocError>
    requires { (G.rules game.now).IsState state.now }
    ensures { IfOk result (λ b. IsTrue b ↔ AreGoalsIn (G.rules game.now) phase state.now goals.now) }
{
    match phase {
        Phase::Stopping | Phase::Finished => are_goals_of(alloc, game, state, goals),
        _ => Ok(goals.is_empty()),
    }
}

fn is_blank(marks: &[Option<Mark>]) -> bool
    ensures { IsTrue result ↔ (marks.now ≡ blank (length marks.now)) }
{
    for mark in marks {
        if mark.is_some() {
            return false;
        }
    }
    true
}

/// The stage of a match, given the settlement of its last state. A requested abort comes first, then missing START marks.
fn stage_by(asked: bool, started: bool, settled: Stage) -> Stage
    ensures { result ≡ stage_by asked started settled }
{
    if asked {
        Stage::Aborting(Cause::Asked)
    } else if started {
        settled
    } else {
        Stage::Starting
    }
}

/// Whether a match at this stage is neither stopping nor aborting.
fn is_live(stage: Stage) -> bool
    ensures { result ≡ is_live stage }
{
    matches!(stage, Stage::Starting | Stage::Playing)
}

/// Whether the phase, the cause and the marks are those of a match, given the settlement of its last state.
fn agrees_with(parts: &RecordParts, settled: Stage, roles: usize) -> bool
    requires starts { length parts.now.start_marks ≡ roles }
    requires ends { length parts.now.end_marks ≡ roles }
    ensures { IsTrue result ↔ AgreesWith roles parts.now settled }
{
    let started = are_all_there(parts.start_marks.as_slice());
    let ended = are_all_there(parts.end_marks.as_slice());
    let asked = matches!(parts.cause, Some(Cause::Asked));
    if !started && parts.moves.count() > 0 {
        return false;
    }
    if asked && !is_live(stage_by(false, started, settled)) {
        return false;
    }
    let stage = stage_by(asked, started, settled);
    if is_live(stage) && !is_blank(parts.end_marks.as_slice()) {
        return false;
    }
    stage.phase(ended) == parts.phase && stage.cause() == parts.cause
}

/// Whether the phase, the cause and the marks are those of a match with this last state and this number of retired roles.
pub fn is_right_end<G: Game>(
    alloc: Global,
    game: &G,
    state: &G::State,
    retired: usize,
    parts: &RecordParts,
) -> Result<bool, AllocError>
    requires state { (G.rules game.now).IsState state.now }
    requires starts { length parts.now.start_marks ≡ (G.rules game.now).roles }
    requires ends { length parts.now.end_marks ≡ (G.rules game.now).roles }
    ensures { IfOk result (λ b. IsEndAnswer (G.rules game.now) parts.now state.now retired b) }
{
    let settlement = settle(alloc, game, state, parts.moves.count(), retired)?;
    Ok(agrees_with(parts, settlement.stage, game.roles()))
}
