//! The calls of a desk and their replies, with the types in them: names and clocks, the setup of a match, the messages that
//! a match owes to a role, a player's answer, and the status of a match.
//!
//! `match_desk` defines the effect of each call.
#![tactic(auto)]

mod answer;
mod call;
mod due;
pub mod laws;
mod names;
mod phase;
mod setup;

pub use answer::{Answer, LentAnswer};
pub use call::{Call, Refusal, Reply};
pub use due::{Due, Owed};
pub use names::{MAX_CLOCK, MAX_STRIKES, are_clocks, are_names, is_clock, is_name, is_strikes};
pub use phase::{Phase, Status, phase_text};
pub use setup::Setup;
