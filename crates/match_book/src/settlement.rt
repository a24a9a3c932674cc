//! The settling rule. After START and after each turn, it decides whether a match continues, stops or aborts.
ghost use Rattle.std.specs.Prelude.{◌≡◌, ◌<◌, ◌==◌, ℕ, IfOk, None};
ghost use Rattle.match_book.specs.Roles.{lowest_role, at_role};
ghost use Rattle.match_book.specs.declared.phase.Stage.TheVariants.{Playing, Aborting};
ghost use Rattle.match_book.specs.Phase.{settled, goal_in, has_no_goal};
ghost use Rattle.match_book.specs.LegalMoves.{AreLegalMoves};

use crate::phase::{Cause, Stage};
use crate::role_moves::{RoleMoves, legal_moves};
use game_core::Game;
use std::alloc::{AllocError, Global};

/// The largest number of turns of a match.
pub const MAX_TURNS: usize = 10_000;

/// The stage of a match in a state. If the match continues, `legal` has each role's legal moves. If it stops, `goals` has
/// each role's goal.
#[derive(Drop)]
pub struct Settlement<M> {
    pub stage: Stage,
    pub legal: Vec<RoleMoves<M>>,
    pub goals: Vec<Option<u8>>,
}

/// The lowest role without a goal, if there is one, and the goals of the roles before it.
fn goals_of<G: Game>(
    alloc: Global,
    game: &G,
    state: &G::State,
) -> Result<(Option<usize>, Vec<Option<u8>>), AllocError>
    requires { (G.rules game.now).IsState state.now }
    ensures lowest { IfOk result (λ o. o.0 ≡ lowest_role (G.rules game.now).roles (has_no_goal (G.rules game.now) state.now)) }
    ensures goals { IfOk result (λ o. o.0 ≡ None → (r : ℕ) → r < (G.rules game.now).roles → at_role o.1.items r ≡ (G.rules game.now).goal state.now r) }
{
    let mut goals = Vec::new(alloc);
    for role in 0..game.roles() {
        let goal = game.goal(alloc, state, role)?;
        if goal.is_none() {
            return Ok((Some(role), goals));
        }
        goals.push(goal)?;
    }
    Ok((None, goals))
}

/// Applies the settling rule to a state after `turns` turns, if `retired` roles are retired.
#[tactic(auto, unfolding(crate::specs::Phase::settled))]
pub fn settle<G: Game>(
    alloc: Global,
    game: &G,
    state: &G::State,
    turns: usize,
    retired: usize,
) -> Result<Settlement<G::Move>, AllocError>
    requires { (G.rules game.now).IsState state.now }
    ensures stage { IfOk result (λ o. o.stage ≡ settled (G.rules game.now) turns (retired == (G.rules game.now).roles) state.now) }
    ensures legal { IfOk result (λ o. o.stage ≡ Playing → AreLegalMoves (G.rules game.now) state.now o.legal.items) }
    ensures goals { IfOk result (λ o. (r : ℕ) → r < (G.rules game.now).roles → at_role o.goals.items r ≡ goal_in (settled (G.rules game.now) turns (retired == (G.rules game.now).roles) state.now) (G.rules game.now) state.now r) }
{
    if game.terminal(alloc, state)? {
        let (without, goals) = goals_of(alloc, game, state)?;
        return match without {
            None => Ok(Settlement {
                stage: Stage::Stopping,
                legal: Vec::new(alloc),
                goals,
            }),
            Some(role) => Ok(Settlement::aborting(alloc, Cause::NoGoal(role))),
        };
    }
    if turns >= MAX_TURNS {
        return Ok(Settlement::aborting(alloc, Cause::TooLong));
    }
    let (without, legal) = legal_moves(alloc, game, state)?;
    match without {
        None if retired == game.roles() => Ok(Settlement::aborting(alloc, Cause::AllRetired)),
        None => Ok(Settlement {
            stage: Stage::Playing,
            legal,
            goals: Vec::new(alloc),
        }),
        Some(role) => Ok(Settlement::aborting(alloc, Cause::NoLegal(role))),
    }
}

impl<M: Drop> Settlement<M> {
    ghost use Rattle.std.specs.Prelude.{[]};

    fn aborting(alloc: Global, cause: Cause) -> Settlement<M>
        ensures stage { result.stage ≡ Aborting cause }
        ensures goals { result.goals.items ≡ [] }
    {
        Settlement {
            stage: Stage::Aborting(cause),
            legal: Vec::new(alloc),
            goals: Vec::new(alloc),
        }
    }
}
