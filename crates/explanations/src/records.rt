//! Explains the results of checking records.

use desk_text::first_piece;
use std::alloc::AllocError;

/// The hint for a text with several lines that should be one record.
const LINES: &str =
    "ggp_manager: the text has several lines: with --lines each line is checked as a record\n";

/// Appends a hint to `out` if a text that should be one record has several lines.
pub fn push_several_lines(text: &[u8], out: &mut String) -> Result<(), AllocError> {
    match first_piece(text, b'\n') {
        (_, Some(more)) if !more.is_empty() => out.push_str(LINES),
        _ => Ok(()),
    }
}

/// Appends to `out` the number of skipped lines of call logs, if it is not 0.
pub fn push_skipped_lines(count: u64, out: &mut String) -> Result<(), AllocError> {
    match count {
        0 => Ok(()),
        _ => write!(out, "ggp_manager: call log lines skipped: {count}\n"),
    }
}
