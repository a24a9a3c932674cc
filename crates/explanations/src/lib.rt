//! Explains errors in an input, as lines for standard error before the error itself.
//!
//! Each function appends lines to a text. No proof depends on these explanations. Functions that allocate take the allocator first.
#![tactic(auto)]

mod bad_entries;
mod bad_lines;
mod descriptions;
mod places;
mod records;
mod refused_matches;

pub use bad_entries::push_bad_entry;
pub use bad_lines::push_first_bad_line;
pub use descriptions::push_description;
pub use records::{push_several_lines, push_skipped_lines};
pub use refused_matches::{push_broken_rules, push_refused_matches};
