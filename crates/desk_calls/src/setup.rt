//! The setup of a match.
use game_core::{Text, Texts};

/// The match's id, the clocks for START and PLAY in seconds, how many replaced moves in a row retire a role (0 means never),
/// and the players' names in the order of the roles.
#[derive(Drop)]
pub struct Setup {
    pub id: Text,
    pub start: u32,
    pub play: u32,
    pub strikes: u8,
    pub players: Texts,
}
