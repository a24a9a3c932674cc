//! Explains a line that does not contain a valid call.

use desk_text::{FaultKind, LineFault, call_of, first_line, first_piece};
use std::alloc::{AllocError, Global};

/// The forms of lines with a call. The first word of each form is its keyword.
static FORMS: [&str; 7] = [
    "open ID GAME START PLAY PLAYER ..",
    "strict ID GAME START PLAY STRIKES PLAYER ..",
    "next ID ROLE",
    "submit ID ROLE ROUND TEXT",
    "miss ID ROLE ROUND silent, or broken",
    "query ID",
    "abort ID",
];

/// The explanation of a line of a call log that has too few fields.
pub const FEWER_FIELDS: &str = "fewer fields than in LINE CALL REPLY, with a tab between each two";

/// The error in a line: the index of the wrong byte, the explanation, and the correct form, which ends the explanation.
#[derive(Clone, Copy)]
pub struct BadLine {
    pub at: usize,
    pub words: &'static str,
    pub form: &'static str,
}

impl BadLine {
    pub fn new(at: usize, words: &'static str) -> BadLine {
        BadLine {
            at,
            words,
            form: "",
        }
    }

    /// The error in a line, given the text and the error of its call.
    pub fn of(line: &[u8], call: &[u8], fault: LineFault) -> BadLine {
        let form = match fault.kind {
            FaultKind::FewerWords | FaultKind::MoreWords => form_of(call),
            _ => "",
        };
        BadLine {
            at: line.len().saturating_sub(fault.left),
            words: words_of(fault.kind),
            form,
        }
    }
}

fn words_of(kind: FaultKind) -> &'static str {
    match kind {
        FaultKind::NoKeyword => "no call begins with this word",
        FaultKind::FewerWords => "fewer words than in ",
        FaultKind::MoreWords => "more words than in ",
        FaultKind::NoName => "an empty word; one space separates words",
        FaultKind::NoNumber(u64::MAX) => {
            "not a number from 0 to 18446744073709551615 without leading zeros"
        }
        FaultKind::NoNumber(_) => "not a number from 0 to 1000000000 without leading zeros",
        FaultKind::NoReason => "neither silent nor broken",
        FaultKind::NoCall => "a byte escaped in another way, or a number too large",
        FaultKind::FewerFields => FEWER_FIELDS,
        FaultKind::NoLine => "not the number of a line",
    }
}

/// The form of lines with the keyword of this call.
fn form_of(call: &[u8]) -> &'static str {
    let (keyword, _) = first_piece(call, b' ');
    for form in &FORMS {
        if first_piece(form.as_bytes(), b' ').0 == keyword {
            return *form;
        }
    }
    ""
}

const SHOWN: usize = 80;

/// Appends to `out` the beginning of a line, two dots if more bytes follow, and a line feed. Prints `?` for each byte
/// that is not visible.
pub fn push_shown(out: &mut String, line: &[u8]) -> Result<(), AllocError> {
    for byte in line.iter().take(SHOWN) {
        let is_seen = byte.is_ascii_graphic() || *byte == b' ';
        out.push(if is_seen { char::from(*byte) } else { '?' })?;
    }
    out.push_str(if line.len() > SHOWN { "..\n" } else { "\n" })
}

/// Appends to `out` the explanation of the bad line with this number, counted from 1.
pub fn push_bad_line(
    out: &mut String,
    number: u64,
    line: &[u8],
    fault: BadLine,
) -> Result<(), AllocError> {
    let BadLine { at, words, form } = fault;
    let column = at.saturating_add(1);
    write!(
        out,
        "ggp_manager: line {number}, column {column}: {words}{form}: "
    )?;
    push_shown(out, line)
}

/// Appends to `out` the explanation of the first bad line of a script.
pub fn push_first_bad_line(
    alloc: Global,
    script: &[u8],
    out: &mut String,
) -> Result<(), AllocError> {
    let mut rest = script;
    let mut number: u64 = 0;
    while !rest.is_empty() {
        let (line, more) = first_line(rest);
        number = number.saturating_add(1);
        if let Err(fault) = call_of(alloc, line)? {
            if line.is_empty() {
                return write!(out, "ggp_manager: line {number}, column 1: an empty line\n");
            }
            return push_bad_line(out, number, line, BadLine::of(line, line, fault));
        }
        rest = more;
    }
    Ok(())
}
