//! The messages of a match, as the Stanford GGP communication specification defines them.
//!
//! `message` writes the message that a match owes to a role, for the referee to send, and `read_message` reads a
//! message, as a player does. `shared_message` writes the same message from borrowed data; the rules are printed only
//! once. `read_info` reads a player's answer to `info_message`.
#![tactic(auto)]

mod brief;
mod clock;
mod info;
mod kind;
pub mod laws;
mod messages;
mod player;
mod reading;
mod shared_brief;
mod start_rules;
mod writing;

pub use brief::Brief;
pub use info::{Info, read_info};
pub use kind::MessageKind;
pub use messages::{Message, MessageFault};
pub use player::Player;
pub use reading::read_message;
pub use shared_brief::SharedBrief;
pub use start_rules::{PrintedRules, StartRules};
pub use writing::{info_message, message, shared_message};
