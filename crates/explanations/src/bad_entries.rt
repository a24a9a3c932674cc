//! Explains a line of a call log that cannot be replayed.

use crate::bad_lines::{BadLine, FEWER_FIELDS, push_bad_line};
use desk_text::{LineFault, ReplayFault, first_line, first_piece};
use std::alloc::AllocError;

fn fault_of(entry: &[u8], fault: LineFault) -> BadLine {
    let (_, fields) = first_piece(entry, b'\t');
    let (call, _) = first_piece(fields.unwrap_or(b""), b'\t');
    BadLine::of(entry, call, fault)
}

/// The first difference between an entry and the correct text: in the call, in the reply, or in the number of fields.
fn difference(entry: &[u8], right: &[u8]) -> BadLine {
    let mut tabs: usize = 0;
    let mut at = 0;
    while at < entry.len() && at < right.len() && entry[at] == right[at] {
        if entry[at] == b'\t' {
            tabs = tabs.saturating_add(1);
        }
        at += 1;
    }
    let words = if tabs < 2 && at == entry.len() {
        FEWER_FIELDS
    } else if tabs == 2 {
        "the call gets another reply"
    } else {
        "the call is written in another way"
    };
    BadLine::new(at, words)
}

/// The line with this number, counted from 1. The text must contain at least that many lines.
fn line_at(text: &[u8], number: u64) -> &[u8] {
    let mut line = text;
    let mut rest = text;
    for _ in 0..number {
        if !rest.is_empty() {
            let (first, more) = first_line(rest);
            line = first;
            rest = more;
        }
    }
    line
}

/// Appends to `out` the explanation of the first wrong line of a call log. Line numbers count from 1 and include the
/// `before` lines of earlier call logs.
pub fn push_bad_entry(
    account: &[u8],
    before: u64,
    fault: &ReplayFault,
    out: &mut String,
) -> Result<(), AllocError> {
    match fault {
        ReplayFault::Memory => Ok(()),
        ReplayFault::NoEntry(place, why) => {
            let entry = line_at(account, *place);
            let wrong = fault_of(entry, *why);
            push_bad_line(out, before.saturating_add(*place), entry, wrong)
        }
        ReplayFault::Differs(place, right) => {
            let entry = line_at(account, *place);
            let wrong = difference(entry, right);
            push_bad_line(out, before.saturating_add(*place), entry, wrong)
        }
    }
}
