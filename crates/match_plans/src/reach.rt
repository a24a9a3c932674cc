//! Makes the players of a match.
ghost use Rattle.std.specs.Prelude.{◌≡◌, Ok};

use crate::addresses::PlayerAddress;
use std::alloc::{AllocError, Global};

/// A role of a match in a batch.
#[derive(Clone, Copy)]
pub struct RolePlace<'a> {
    /// The index of the match in its batch, or 0 if there is no batch.
    pub place: usize,
    /// The match's id.
    pub id: &'a str,
    pub role: usize,
    /// The length in bytes of the game's longest move that fits into an answer.
    pub longest_move: usize,
}

/// Makes players.
pub trait Reach {
    /// The type of the players that a `Reach` makes.
    type Player;

    ghost use Rattle.match_plans.specs.declared.addresses.PlayerAddress.{PlayerAddress};
    ghost use Rattle.match_plans.specs.declared.reach.RolePlace.{RolePlace};

    /// This player was made for this address and this role of a match. By default, this holds for every player.
    ghost is_reached: { Self → RolePlace → PlayerAddress → Self.Player → Type 0 } = { λ s at address player. Unit {0} };

    /// Makes the player at this address for this role of a match, and sends it nothing. The only error is out of
    /// memory.
    fn player(
        &self,
        alloc: Global,
        at: RolePlace<'_>,
        address: &PlayerAddress<'_>,
    ) -> Result<Self::Player, AllocError>
        ensures { (player : Self.Player) → result ≡ Ok player → is_reached self.now at.entry address.now player };
}
