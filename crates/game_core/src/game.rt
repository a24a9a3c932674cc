//! The trait of all games.
ghost use Rattle.std.specs.Prelude.{◌≡◌, ◌<◌, IfOk, map};
ghost use Rattle.std.specs.Cow.{cow_slice_items};
ghost use Rattle.game_core.specs.Play.{Rules, IsJoint, IsLawful};

use std::alloc::{AllocError, Global};
use std::borrow::CowSlice;

/// A game with simultaneous moves and full information, as GDL describes them. In each state that is not terminal, each role
/// makes one move, and the joint move leads to the next state.
///
/// The methods return the values of the functions in `rules`, so a result depends only on the arguments. Roles are numbered
/// from 0. A method returns `AllocError` only if an allocation is refused.
pub trait Game {
    type State: Drop;

    type Move: Drop;

    ghost rules: { Self → Rules Self.State Self.Move };

    /// The number of roles: 1 to 16.
    fn roles(&self) -> usize
        ensures { result ≡ (rules self.now).roles };

    /// The role's name in canonical text, in lower case.
    fn role_name(&self, role: usize) -> &[u8]
        requires { role < (rules self.now).roles }
        ensures { result.now ≡ (rules self.now).role_name role };

    /// The initial state of the game.
    fn initial(&self, alloc: Global) -> Result<Self::State, AllocError>
        ensures { IfOk result (λ s. s ≡ (rules self.now).initial) };

    /// The role's legal moves, each once. The first one replaces the move of a role that makes no legal move.
    fn legal(
        &self,
        alloc: Global,
        state: &Self::State,
        role: usize,
    ) -> Result<Vec<Self::Move>, AllocError>
        requires state { (rules self.now).IsState state.now }
        requires role { role < (rules self.now).roles }
        ensures { IfOk result (λ v. v.items ≡ (rules self.now).legal state.now role) };

    /// The state after a joint move, which has one legal move for each role.
    fn next(
        &self,
        alloc: Global,
        state: &Self::State,
        joint: &[Self::Move],
    ) -> Result<Self::State, AllocError>
        requires state { (rules self.now).IsState state.now }
        requires joint { IsJoint (rules self.now) state.now joint.now }
        ensures { IfOk result (λ t. t ≡ (rules self.now).next state.now joint.now) };

    /// Whether the game has ended.
    fn terminal(&self, alloc: Global, state: &Self::State) -> Result<bool, AllocError>
        requires { (rules self.now).IsState state.now }
        ensures { IfOk result (λ b. b ≡ (rules self.now).terminal state.now) };

    /// The role's goal value, 0 to 100. It is `None` if the role does not have exactly one goal.
    fn goal(
        &self,
        alloc: Global,
        state: &Self::State,
        role: usize,
    ) -> Result<Option<u8>, AllocError>
        requires state { (rules self.now).IsState state.now }
        requires role { role < (rules self.now).roles }
        ensures { IfOk result (λ o. o ≡ (rules self.now).goal state.now role) };

    /// The move in canonical text, in lower case. Moves with equal texts are equal.
    fn move_text(&self, taken: &Self::Move) -> &[u8]
        requires { (rules self.now).IsMove taken.now }
        ensures { result.now ≡ (rules self.now).move_text taken.now };

    /// The state's terms in canonical text, each once, in byte order. A game that stores these texts returns them borrowed.
    fn state_text(
        &self,
        alloc: Global,
        state: &Self::State,
    ) -> Result<Vec<CowSlice<'_, u8, Global>>, AllocError>
        requires { (rules self.now).IsState state.now }
        ensures { IfOk result (λ v. map cow_slice_items v.items ≡ (rules self.now).state_text state.now) };

    /// Copies the state.
    fn copy_state(&self, alloc: Global, state: &Self::State) -> Result<Self::State, AllocError>
        requires { (rules self.now).IsState state.now }
        ensures { IfOk result (λ t. t ≡ state.now) };

    /// Copies the move.
    fn copy_move(&self, alloc: Global, taken: &Self::Move) -> Result<Self::Move, AllocError>
        requires { (rules self.now).IsMove taken.now }
        ensures { IfOk result (λ m. m ≡ taken.now) };

    /// The laws of every game.
    ghost laws: { (g : Self) → IsLawful (rules g) };
}
