//! Decides which matches of a schedule to play: those that are not over according to the lawful records of a file.
//!
//! `plans_of` reads a schedule and removes the matches that are over according to the `--done` file, and `undone` removes
//! those that are over according to another file. `partial_record` finds a record with an incomplete call log. Free
//! functions take the allocator first, after a handle for files.
#![tactic(auto)]

mod accounts;
mod done;
mod schedules;

pub use accounts::{PartialRecord, partial_record};
pub use done::DoneMatches;
pub use schedules::{plans_of, undone};
