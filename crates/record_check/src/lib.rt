//! Checks whether a text can be the record of a match of a game.
//!
//! `verify` accepts a text if and only if it is the record of some lawful match of the game. Otherwise it returns the first
//! test that fails. It replays the turns by the rules, and does not rely on the states in the record. `lawful_parts`
//! returns the values of a lawful record.
#![tactic(auto)]

mod ending;
mod recorded_turn;
mod replaying;
mod verifying;

pub use record_reading::{RecordParts, VerifyFault};
pub use verifying::{lawful_parts, verify};
