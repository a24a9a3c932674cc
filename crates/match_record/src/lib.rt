//! Writes the record of a match.
//!
//! `record_json` writes one JSON object with fifteen keys. A record has only the recorded turns of the match.
//! `record_reading` defines records, their keys and errors, and has their laws; this crate re-exports them.
#![tactic(auto)]

pub mod laws;
mod record;
mod writing;

pub use record::{push_record, record_json};
pub use record_reading::{Key, VerifyFault, phase_text};
