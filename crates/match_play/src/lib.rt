//! Plays one match between players on the network, from its plan to its record.
//!
//! `prepared_match` makes the players of a plan. `ended_match` referees the match and returns its record and call log
//! as text; `told_match` instead returns what a `MatchReader` computes from the match. Free functions take the
//! allocator first, after a handle for threads and waiting.
#![tactic(auto)]

mod playable_game;
mod playing;

pub use playable_game::{PlayableGame, other_rules, own_rules};
pub use playing::{
    EndedMatch, MatchFault, MatchReader, PreparedMatch, ended_match, prepared_match, told_match,
};
