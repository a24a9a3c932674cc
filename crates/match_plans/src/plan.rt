//! The plan of a match, and of the check of a player.

use crate::addresses::PlayerAddress;

/// A match between players on the network. The clocks are in seconds. A role is retired after `strikes` replaced moves
/// in a row; if `strikes` is 0, no role is retired. The players are in the order of the roles.
#[derive(Drop)]
pub struct MatchPlan<'a> {
    pub id: &'a str,
    pub start: u32,
    pub play: u32,
    pub strikes: u8,
    pub players: Vec<PlayerAddress<'a>>,
}

/// The player to check, the clocks in seconds, and the strikes of the matches.
#[derive(Clone, Copy)]
pub struct CheckPlan<'a> {
    pub player: PlayerAddress<'a>,
    pub start: u32,
    pub play: u32,
    pub strikes: u8,
}
