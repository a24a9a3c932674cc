//! Joint moves.
ghost use Rattle.std.specs.Prelude.{◌≡◌, ◌<◌, length, slice_get, Some};

use std::marker::Model;

/// A joint move: one move for each role, in the order of the roles. Contracts see a list.
#[derive(Drop)]
pub struct Joint<M> {
    pub moves: Vec<M>,
}

impl<M> Model for Joint<M> {
    ghost use Rattle.std.specs.Prelude.{List};

    ghost Value = { List M };

    ghost view = { λ j. j.moves.items };
}

impl<M> Joint<M> {
    /// The moves in the order of the roles.
    pub fn as_slice(&self) -> &[M]
        ensures { result.now ≡ self.now }
    {
        self.moves.as_slice()
    }

    /// The move of a role.
    pub fn at(&self, role: usize) -> &M
        requires { role < length self.now }
        ensures { slice_get self.now role ≡ Some result.now }
    {
        &self.moves[role]
    }
}
