//! The definition of a game, and the types that all other crates use: texts, joint moves, counted streams.
#![tactic(auto)]

mod countdown;
mod counted;
mod game;
mod joint;
pub mod laws;
mod lent;
mod limits;
pub mod lines;
pub mod numeral;
mod play;
mod text;
mod texts;

pub use countdown::{Countdown, Position, Side, Take};
pub use counted::{Counted, MAX_STREAM_CALLS};
pub use game::Game;
pub use joint::Joint;
pub use lent::Lent;
pub use limits::{Limits, MAX_DEPTH, MAX_GOAL, MAX_ROLES};
pub use play::{PlayFault, play_list};
pub use text::Text;
pub use texts::Texts;
