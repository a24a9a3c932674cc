//! The legal moves of each role.
ghost use Rattle.std.specs.Prelude.{◌≡◌, IfOk, None};
ghost use Rattle.match_book.specs.Roles.{lowest_role};
ghost use Rattle.match_book.specs.Phase.{has_no_move};
ghost use Rattle.match_book.specs.LegalMoves.{AreLegalMoves};

use game_core::Game;
use std::alloc::{AllocError, Global};
use std::marker::Model;

/// The legal moves of one role. Contracts see the list.
#[derive(Drop)]
pub struct RoleMoves<M> {
    items: Vec<M>,
}

impl<M> Model for RoleMoves<M> {
    ghost use Rattle.std.specs.Prelude.{List};

    ghost Value = { List M };

    ghost view = { λ r. r.items.items };
}

impl<M> RoleMoves<M> {
    pub fn as_slice(&self) -> &[M]
        ensures { result.now ≡ self.now }
    {
        self.items.as_slice()
    }
}

/// The lowest role without a legal move, or else the legal moves of each role.
pub fn legal_moves<G: Game>(
    alloc: Global,
    game: &G,
    state: &G::State,
) -> Result<(Option<usize>, Vec<RoleMoves<G::Move>>), AllocError>
    requires { (G.rules game.now).IsState state.now }
    ensures lowest { IfOk result (λ o. o.0 ≡ lowest_role (G.rules game.now).roles (has_no_move (G.rules game.now) state.now)) }
    ensures moves { IfOk result (λ o. o.0 ≡ None → AreLegalMoves (G.rules game.now) state.now o.1.items) }
{
    let mut moves = Vec::new(alloc);
    for role in 0..game.roles() {
        let items = game.legal(alloc, state, role)?;
        if items.is_empty() {
            return Ok((Some(role), moves));
        }
        moves.push(RoleMoves { items })?;
    }
    Ok((None, moves))
}
