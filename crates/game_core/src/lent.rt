//! Borrowed games.

use crate::game::Game;
use std::alloc::{AllocError, Global};
use std::borrow::CowSlice;
use std::marker::Model;

/// A borrowed game. It lets many matches share one game. Contracts see the game itself.
#[derive(Drop)]
pub struct Lent<'a, G> {
    game: &'a G,
}

impl<'a, G> Model for Lent<'a, G> {
    ghost Value = { G };

    ghost view = { λ l. l.game.now };
}

impl<'a, G> Lent<'a, G> {
    ghost use Rattle.std.specs.Prelude.{◌≡◌};

    /// Borrows the game.
    pub fn new(game: &'a G) -> Lent<'a, G>
        ensures { result ≡ game.now }
    {
        Lent { game }
    }
}

impl<'a, G: Game> Game for Lent<'a, G> {
    type State = G::State;

    type Move = G::Move;

    ghost rules = { λ g. G.rules g };

    ghost laws = { λ g. G.laws g };

    fn roles(&self) -> usize {
        self.game.roles()
    }

    fn role_name(&self, role: usize) -> &[u8] {
        self.game.role_name(role)
    }

    fn initial(&self, alloc: Global) -> Result<G::State, AllocError> {
        self.game.initial(alloc)
    }

    fn legal(
        &self,
        alloc: Global,
        state: &G::State,
        role: usize,
    ) -> Result<Vec<G::Move>, AllocError> {
        self.game.legal(alloc, state, role)
    }

    fn next(
        &self,
        alloc: Global,
        state: &G::State,
        joint: &[G::Move],
    ) -> Result<G::State, AllocError> {
        self.game.next(alloc, state, joint)
    }

    fn terminal(&self, alloc: Global, state: &G::State) -> Result<bool, AllocError> {
        self.game.terminal(alloc, state)
    }

    fn goal(&self, alloc: Global, state: &G::State, role: usize) -> Result<Option<u8>, AllocError> {
        self.game.goal(alloc, state, role)
    }

    fn move_text(&self, taken: &G::Move) -> &[u8] {
        self.game.move_text(taken)
    }

    fn state_text(
        &self,
        alloc: Global,
        state: &G::State,
    ) -> Result<Vec<CowSlice<'_, u8, Global>>, AllocError> {
        self.game.state_text(alloc, state)
    }

    fn copy_state(&self, alloc: Global, state: &G::State) -> Result<G::State, AllocError> {
        self.game.copy_state(alloc, state)
    }

    fn copy_move(&self, alloc: Global, taken: &G::Move) -> Result<G::Move, AllocError> {
        self.game.copy_move(alloc, taken)
    }
}
