//! Reads and prints KIF text.
//!
//! A text is a sequence of expressions with white space and comments between them. White space is space, tab, carriage
//! return and line feed. A comment runs from a semicolon to the next line feed or to the end of the text, and may contain
//! any bytes. An atom is a maximal run of the bytes 0x21 to 0x7E, except parentheses and the semicolon. A list is enclosed
//! in parentheses. This is the prefix syntax of KIF that the Game Description Language uses, without strings.
#![tactic(auto)]

mod expr;
mod fault;
pub mod laws;
mod printing;
mod reader;
mod reading;

pub use expr::{Expr, copy, fold, folded_copies, folded_copy};
pub use fault::KifFault;
pub use printing::print;
pub use reader::is_atom_byte;
pub use reading::{read_all, read_one, read_up_to};
