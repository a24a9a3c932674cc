//! The values in the record of a match, and how to read them.
//!
//! A record is one JSON object with fifteen keys, and has only the recorded turns of a match. `read_record` reads a text if
//! it has the shape of a record of the game. Otherwise it returns the first shape test that fails. `laws` has the laws of
//! all records.
#![tactic(auto)]

mod error_texts;
mod json_numbers;
mod json_values;
mod kept_tree;
pub mod laws;
mod reading;
mod record_parts;
mod record_words;
mod verify_fault;

pub use desk_calls::phase_text;
pub use reading::read_record;
pub use record_parts::{Goals, Key, Marks, RecordParts, TextLists, Version};
pub use verify_fault::VerifyFault;
