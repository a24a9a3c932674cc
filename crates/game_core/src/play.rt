//! Replays of joint moves.
ghost use Rattle.std.specs.Prelude.{◌≡◌, ◌<◌, ◌↔◌, All, Contains, IfOk, IsTrue, MatchOption, length};
ghost use Rattle.game_core.specs.Play.{IsJoint};
ghost use Rattle.game_core.specs.PlayAnswer.{IsPlayAnswer, IsFirstIllegal};
ghost use Rattle.game_core.specs.declared.play.PlayFault.TheVariants.{Memory};

use crate::game::Game;
use crate::joint::Joint;
use std::alloc::{AllocError, Global};
use thiserror::Error;

/// Why a list of joint moves cannot be played. The error names the first wrong turn. If that turn has several of these errors,
/// `play_list` reports the first one in this list. Turns and roles are numbered from 0.
#[derive(Clone, Copy, Debug, PartialEq, Eq, Error)]
pub enum PlayFault {
    /// The state before this turn is terminal.
    #[error("turn {turn} comes after the end of the game")]
    AfterEnd { turn: usize },
    /// The turn does not have exactly one move for each role.
    #[error("turn {turn} does not have one move for each role")]
    WrongWidth { turn: usize },
    /// This role's move is not legal. The moves of all lower roles are legal.
    #[error("the move of role {role} in turn {turn} is not legal")]
    Illegal { turn: usize, role: usize },
    /// Out of memory.
    #[error("out of memory")]
    Memory,
}

impl From<AllocError> for PlayFault {
    ghost from_gives = { λ _ fault. fault ≡ Memory };

    fn from(_: AllocError) -> PlayFault {
        PlayFault::Memory
    }
}

fn is_legal<G: Game>(
    alloc: Global,
    game: &G,
    state: &G::State,
    role: usize,
    taken: &G::Move,
) -> Result<bool, AllocError>
    requires state { (G.rules game.now).IsState state.now }
    requires role { role < (G.rules game.now).roles }
    requires taken { (G.rules game.now).IsMove taken.now }
    ensures { IfOk result (λ b. IsTrue b ↔ Contains ((G.rules game.now).legal state.now role) taken.now) }
{
    let wanted = game.move_text(taken);
    let legal = game.legal(alloc, state, role)?;
    for other in &legal {
        if game.move_text(other) == wanted {
            return Ok(true);
        }
    }
    Ok(false)
}

/// The lowest role with a move that is not legal in the state.
fn first_illegal<G: Game>(
    alloc: Global,
    game: &G,
    state: &G::State,
    joint: &[G::Move],
) -> Result<Option<usize>, AllocError>
    requires state { (G.rules game.now).IsState state.now }
    requires width { length joint.now ≡ (G.rules game.now).roles }
    requires moves { All (λ m. (G.rules game.now).IsMove m) joint.now }
    ensures { IfOk result (λ o. MatchOption o (IsJoint (G.rules game.now) state.now joint.now) (IsFirstIllegal (G.rules game.now) state.now joint.now)) }
{
    for (role, taken) in joint.iter().enumerate() {
        if !is_legal(alloc, game, state, role, taken)? {
            return Ok(Some(role));
        }
    }
    Ok(None)
}

/// Replays joint moves from the initial state. Returns the state after them, or the first error.
pub fn play_list<G: Game>(
    alloc: Global,
    game: &G,
    turns: &[Joint<G::Move>],
) -> Result<G::State, PlayFault>
    requires { All (λ joint. All (λ m. (G.rules game.now).IsMove m) joint) turns.now }
    ensures { IsPlayAnswer (G.rules game.now) turns.now result }
{
    let mut state = game.initial(alloc)?;
    for (turn, joint) in turns.iter().enumerate() {
        if game.terminal(alloc, &state)? {
            return Err(PlayFault::AfterEnd { turn });
        }
        let moves = joint.as_slice();
        if moves.len() != game.roles() {
            return Err(PlayFault::WrongWidth { turn });
        }
        if let Some(role) = first_illegal(alloc, game, &state, moves)? {
            return Err(PlayFault::Illegal { turn, role });
        }
        state = game.next(alloc, &state, moves)?;
    }
    Ok(state)
}
