//! Referees a whole match between players.
//!
//! `referee` opens a desk with the match, runs a thread for each role that attends it, and returns the closed desk with
//! the history of the match.
#![tactic(auto)]

mod closing;
pub mod laws;
mod refereed;
mod refereeing;

pub use match_messages::Player;
pub use refereed::Refereed;
pub use refereeing::{RefereeFault, referee, referee_shared};
pub use role_workers::{AttendFault, attend, attend_shared};
