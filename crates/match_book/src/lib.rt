//! A match of any game. It decides which message it owes to each role, judges answers, replaces moves, and stops or
//! aborts.
//!
//! Only answers and aborts change a match. A match sends nothing and has no clock.
#![tactic(auto)]

mod answer;
mod answer_text;
mod due;
mod judgement;
pub mod laws;
mod matches;
mod phase;
mod places;
mod retirement;
mod role_moves;
mod settlement;
mod turn;

pub use answer::{AbortFault, AnswerFault, AnswerRefusal, Mark};
pub use answer_text::{MAX_ANSWER, MAX_READING};
pub use desk_calls::{
    Answer, Due, LentAnswer, MAX_CLOCK, MAX_STRIKES, Owed, Phase, Setup, Status, are_clocks,
    are_names, is_clock, is_name, is_strikes,
};
pub use due::OwedFault;
pub use judgement::{ILLEGAL_PREFIX, Judgement, RETIRED, UNREADABLE, place_of};
pub use matches::Match;
pub use phase::{Cause, Stage};
pub use places::are_all_there;
pub use retirement::{RoleStrikes, all_unstruck, count_retired, is_retired_at, strikes_after};
pub use role_moves::{RoleMoves, legal_moves};
pub use settlement::{MAX_TURNS, Settlement, settle};
pub use turn::Turn;
