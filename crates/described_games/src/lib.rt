//! Makes games from the texts of their descriptions.
//!
//! `described_game` returns the game or an error; `explanations` describes the error in more detail. `countdown_rules` writes
//! the description of Countdown.
#![tactic(auto)]

mod countdown_text;
mod games;

pub use countdown_text::countdown_rules;
pub use games::{DescriptionFault, described_game};
