//! The errors of the program, and the files that a command line names.
//!
//! `Fault` lists every error, with its message and exit status. Free functions take the allocator first, after a handle for files.
#![tactic(auto)]

mod fault;
mod files;
mod printable;

pub use fault::Fault;
pub use files::{
    FileFault, MAX_LINE, MAX_PLAYER_RULES, MaxBytes, NamedFile, file_text, input_file_fault,
    opened, opened_regular, reading_fault, report_unusable_file,
};
pub use printable::Printable;
