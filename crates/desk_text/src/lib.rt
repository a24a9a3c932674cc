//! The texts of a desk: reads the lines of scripts as calls, writes replies as lines, and writes and replays call logs.
//!
//! Free functions take the allocator first.
#![tactic(auto)]

mod account;
mod account_lines;
mod entry_calls;
mod escapes;
pub mod laws;
mod line_fault;
mod lines;
mod replaying;
mod reply_lines;
mod script_lines;
mod words;

pub use account::push_history;
pub use account_lines::is_account_line;
pub use line_fault::{FaultKind, LineFault};
pub use lines::first_line;
pub use replaying::{ReplayFault, Replayed, replay};
pub use reply_lines::{push_reply, refusal_word};
pub use script_lines::call_of;
pub use words::{first_piece, plain_number_up_to};
