//! Reads whole inputs, writes whole outputs, reads inputs line by line, and formats text to streams. The streams count
//! their calls and failures.
#![tactic(auto)]

pub mod laws;
mod lines;
mod pieces;
mod whole;

pub use lines::{LineBuffer, NextLine};
pub use pieces::Pieces;
pub use whole::{InputFault, WriteFault, read_to_end, write_all};
