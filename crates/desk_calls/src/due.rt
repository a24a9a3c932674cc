//! The messages that a match owes to a role.
use game_core::Texts;

/// A message that a match owes to a role. PLAY and STOP have the texts of the last joint move, in the order of the roles, or
/// `None` before the first turn.
#[derive(Drop)]
pub enum Owed {
    Start,
    Play(Option<Texts>),
    Stop(Option<Texts>),
    Abort,
}

/// The message that a match owes to a role now, or the reason why it owes none.
#[derive(Drop)]
pub enum Due {
    /// The match owes the role this message, and expects an answer for this round.
    Owe { round: u64, owed: Owed },
    /// The role has answered this round, and the match waits for the others.
    Hold { round: u64 },
    /// The match is finished or aborted.
    Over,
}
