//! Runs a worker for each role of a match, in a separate thread.
//!
//! `attend` repeatedly asks the desk over a wire what it owes to the role, sends the owed message to the role's player,
//! and gives the desk the answer. `attend_match` runs one thread for each role; together, the threads serve one desk
//! over rings. The calls and replies are those of `desk_calls`, but the desk may do anything with them.
#![tactic(auto)]

mod attend_fault;
mod attended_match;
mod attending;
mod finishing;
mod holder;
pub mod laws;
mod seat;
mod seats;
mod served_wire;
mod shared_desk;

pub use attend_fault::AttendFault;
pub use attended_match::{AttendancePlan, AttendedMatch, attend_match};
pub use attending::{attend, attend_shared};
pub use finishing::ROOM;
pub use holder::{DeskHolder, ask_own};
pub use shared_desk::DeskBrand;
