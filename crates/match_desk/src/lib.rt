//! The desk of all matches: a manager of many matches, with six calls that read and change them. The contract of each call
//! states its reply and its effect, so a history of calls can be replayed on one thread.
//!
//! The contracts of `close_desk` and `close_rings` state the guarantees for a manager that many threads shared, behind a lock
//! or over rings.
#![tactic(auto)]

mod asked_setup;
mod closing;
mod copied_call;
pub mod laws;
mod manager;
mod slot;

pub use asked_setup::open_call;
pub use closing::{close_desk, close_rings};
pub use desk_calls::{Call, Refusal, Reply};
pub use manager::Manager;
