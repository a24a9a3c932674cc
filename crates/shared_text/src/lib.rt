//! Texts that share one part with other texts.
#![tactic(auto)]

mod parts;
mod shared_text;

pub use shared_text::SharedText;
