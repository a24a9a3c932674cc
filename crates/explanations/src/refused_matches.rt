//! Explains why a desk refuses to open matches.

use crate::bad_lines::{BadLine, push_bad_line};
use desk_calls::{MAX_CLOCK, is_name};
use desk_text::{first_piece, plain_number_up_to};
use game_core::lines::without_return;
use std::alloc::AllocError;

const BAD_ID: &str = "badid: an id has 1 to 64 letters, digits, -, _ and .";

const BAD_CLOCK: &str = "badclock: a clock has 1 to 86400 seconds";

/// The rule that the word at this index of a schedule's line breaks, if any. The id has the index 0.
fn broken_rule(place: usize, word: &[u8]) -> Option<&'static str> {
    match place {
        0 if !is_name(word) => Some(BAD_ID),
        1 | 2 => match plain_number_up_to(word, u64::from(MAX_CLOCK)) {
            None | Some(0) => Some(BAD_CLOCK),
            Some(_) => None,
        },
        _ => None,
    }
}

/// The error in a line of a schedule, if the match in it breaks a rule.
fn refused_match(line: &[u8]) -> Option<BadLine> {
    let mut start: usize = 0;
    let mut place: usize = 0;
    for end in 0..=line.len() {
        if let Some(b' ' | b'\t') | None = line.get(end) {
            let word = line.get(start..end).unwrap_or(b"");
            if place == 0 && word.starts_with(b"#") {
                return None;
            }
            if !word.is_empty() {
                if let Some(words) = broken_rule(place, word) {
                    return Some(BadLine::new(start, words));
                }
                place = place.saturating_add(1);
            }
            start = end.saturating_add(1);
        }
    }
    None
}

/// Appends to `out` an explanation for each match of a schedule that breaks a rule. Line numbers count from 1.
pub fn push_refused_matches(schedule: &[u8], out: &mut String) -> Result<(), AllocError> {
    let mut rest = Some(schedule);
    for number in 1..u64::MAX {
        let Some(text) = rest else {
            break;
        };
        let (line, more) = first_piece(text, b'\n');
        let line = without_return(line);
        if let Some(fault) = refused_match(line) {
            push_bad_line(out, number, line, fault)?;
        }
        rest = more;
    }
    Ok(())
}

/// Appends to `out` the rules that a match with this id, these clocks and this many players breaks, in a game with
/// `roles` roles.
pub fn push_broken_rules(
    id: &str,
    clocks: [u32; 2],
    players: usize,
    roles: usize,
    out: &mut String,
) -> Result<(), AllocError> {
    if !is_name(id.as_bytes()) {
        write!(out, "ggp_manager: {BAD_ID}: {id}\n")?;
    }
    if players != roles {
        write!(
            out,
            "ggp_manager: wrongplayers: a match has one player for each role: roles {roles}, players {players}\n"
        )?;
    }
    for clock in clocks {
        if clock == 0 || clock > MAX_CLOCK {
            write!(out, "ggp_manager: {BAD_CLOCK}: {clock}\n")?;
        }
    }
    Ok(())
}
