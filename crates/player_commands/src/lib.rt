//! The commands that contact single players, over any streams and any network. `info` asks whether a player is
//! available. `abort` sends ABORT for a match whose referee has stopped. `check` plays a match for each role of a game,
//! with the checked player in this role, and writes a table of the messages, the answers and their verdicts. The other
//! roles answer nothing, so the referee plays their first legal moves.
//!
//! Free functions take the allocator first, after a handle for threads, waiting or the network.
#![tactic(auto)]

mod check;
mod fault;
mod messages;
mod move_words;
mod reasons;
mod role_turns;
mod table;
mod watched;

pub use check::{CheckFault, check_player};
pub use fault::{CommandFault, contact_fault};
pub use messages::{abort, info};
pub use reasons::Reasons;
