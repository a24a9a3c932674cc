//! Replays the turns of a record by the rules of the game.
ghost use Rattle.std.specs.Prelude.{◌≡◌, ◌≢◌, ◌<◌, ◌↔◌, IfOk, IfErr, OnOk, IsTrue, length, map};
ghost use Rattle.std.specs.Cow.{cow_slice_items};
ghost use Rattle.record_reading.specs.RecordTree.{HasShape};
ghost use Rattle.record_reading.specs.LawfulRecord.{AreLawfulParts};
ghost use Rattle.record_check.specs.Replaying.{IsFirstFault, ShowsState};
ghost use Rattle.record_check.specs.Internal.ReplaySteps.{IsReplayAnswer};
ghost use Rattle.record_reading.specs.declared.verify_fault.VerifyFault.TheVariants.{Memory};

use crate::ending::{are_goals_in, is_right_end};
use crate::recorded_turn::{RecordedTurn, replay_turn};
use game_core::{Game, Text};
use match_book::laws::{
    begun_rounds_are_open, lawful_turns_are_of_the_game, one_more_turn, stages_are_settled,
    strikes_follow_turns,
};
use match_book::{all_unstruck, count_retired, strikes_after};
use record_reading::{RecordParts, VerifyFault};
use std::alloc::{AllocError, Global};
use std::borrow::CowSlice;

fn are_same(texts: &[CowSlice<'_, u8, Global>], others: &[Text]) -> bool
    ensures { IsTrue result ↔ (map cow_slice_items texts.now ≡ others.now) }
{
    if texts.len() != others.len() {
        return false;
    }
    for (place, text) in texts.iter().enumerate() {
        if text.as_slice() != others[place].as_slice() {
            return false;
        }
    }
    true
}

/// Whether the record has this state after this many turns.
fn shows_state<G: Game>(
    alloc: Global,
    game: &G,
    parts: &RecordParts,
    turns: usize,
    state: &G::State,
) -> Result<bool, AllocError>
    requires state { (G.rules game.now).IsState state.now }
    requires turns { turns < length parts.now.states }
    ensures { IfOk result (λ b. IsTrue b ↔ ShowsState (G.rules game.now) parts.now turns state.now) }
{
    let played = game.state_text(alloc, state)?;
    Ok(are_same(played.as_slice(), parts.states.at(turns)))
}

/// The last state of the record and the number of retired roles in it, or the first error of its states and turns.
fn replay_turns<G: Game>(
    alloc: Global,
    game: &G,
    parts: &RecordParts,
) -> Result<(G::State, usize), VerifyFault>
    requires { HasShape (G.rules game.now) parts.now }
    ensures { IsReplayAnswer (G.rules game.now) parts.now result }
{
    one_more_turn::<G>();
    strikes_follow_turns::<G>();
    let mut state = game.initial(alloc)?;
    let mut strikes = all_unstruck(alloc, game.roles())?;
    let turns = parts.moves.count();
    for turn in 0..turns {
        if !shows_state(alloc, game, parts, turn, &state)? {
            return Err(VerifyFault::WrongState(turn));
        }
        let moves = parts.moves.at(turn);
        let errors = parts.errors.at(turn);
        let recorded = RecordedTurn {
            number: turn,
            moves,
            errors,
        };
        state = replay_turn(alloc, game, &state, strikes.as_slice(), recorded)?;
        strikes = strikes_after(alloc, parts.strikes, strikes.as_slice(), errors)?;
    }
    if !shows_state(alloc, game, parts, turns, &state)? {
        return Err(VerifyFault::WrongState(turns));
    }
    Ok((state, count_retired(strikes.as_slice())))
}

/// Checks that a record of the right shape is the record of some lawful match of the game. It tests the turns in order,
/// then the goals, then the end, and returns the first error.
pub fn replay_record<G: Game>(
    alloc: Global,
    game: &G,
    parts: &RecordParts,
) -> Result<(), VerifyFault>
    requires { HasShape (G.rules game.now) parts.now }
    ensures lawful { OnOk result (AreLawfulParts (G.rules game.now) parts.now) }
    ensures not_lawful { IfErr result (λ fault. fault ≢ Memory → ¬ (AreLawfulParts (G.rules game.now) parts.now)) }
    ensures first { IfErr result (λ fault. IsFirstFault (G.rules game.now) parts.now fault) }
{
    begun_rounds_are_open::<G>();
    lawful_turns_are_of_the_game::<G>();
    stages_are_settled::<G>();
    let (state, retired) = replay_turns(alloc, game, parts)?;
    let goals = parts.goals.as_slice();
    if !are_goals_in(alloc, game, parts.phase, &state, goals)? {
        return Err(VerifyFault::WrongGoals);
    }
    if !is_right_end(alloc, game, &state, retired, parts)? {
        return Err(VerifyFault::WrongEnd);
    }
    Ok(())
}
