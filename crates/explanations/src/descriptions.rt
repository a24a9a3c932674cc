//! Explains why a text does not describe a game: the position of its first error, the message, and the sentence at this
//! position.

use crate::bad_lines::push_shown;
use crate::places::Place;
use described_games::{DescriptionFault, described_game};
use game_core::{Limits, MAX_ROLES};
use kif_text::{KifFault, is_atom_byte};
use rule_sentences::LoadFault;
use rule_sentences::sizes::MAX_MOVES;
use std::alloc::{AllocError, Global};

/// A text with spaces in place of its comments, and the offsets of its sentences.
#[derive(Drop)]
struct Sentences {
    text: Vec<u8>,
    starts: Vec<usize>,
}

/// The text with a space for each byte of a comment.
fn without_comments(alloc: Global, text: &[u8]) -> Result<Vec<u8>, AllocError> {
    let mut bare = Vec::with_capacity(alloc, text.len())?;
    let mut in_comment = false;
    for byte in text {
        in_comment = *byte != b'\n' && (in_comment || *byte == b';');
        bare.push(if in_comment { b' ' } else { *byte })?;
    }
    Ok(bare)
}

/// The offset of each sentence in a text without comments.
fn starts_of(alloc: Global, text: &[u8]) -> Result<Vec<usize>, AllocError> {
    let mut starts = Vec::new(alloc);
    let mut depth: usize = 0;
    let mut in_atom = false;
    for (at, byte) in text.iter().enumerate() {
        let is_atom = is_atom_byte(*byte);
        if depth == 0 && (*byte == b'(' || (is_atom && !in_atom)) {
            starts.push(at)?;
        }
        in_atom = is_atom;
        match *byte {
            b'(' => depth = depth.saturating_add(1),
            b')' => depth = depth.saturating_sub(1),
            _ => {}
        }
    }
    Ok(starts)
}

/// The offset of the first variable at or after `start`.
fn variable_from(text: &[u8], start: usize) -> usize {
    let mut in_atom = false;
    for at in start..text.len() {
        if text[at] == b'?' && !in_atom {
            return at;
        }
        in_atom = is_atom_byte(text[at]);
    }
    start
}

/// A text on one line, with one space for each run of white space.
fn one_line(alloc: Global, text: &[u8]) -> Result<Vec<u8>, AllocError> {
    let mut line = Vec::new(alloc);
    for word in text.split(|byte| matches!(*byte, b' ' | b'\t' | b'\r' | b'\n')) {
        if !word.is_empty() {
            if !line.is_empty() {
                line.push(b' ')?;
            }
            line.extend_from_slice(word)?;
        }
    }
    Ok(line)
}

impl Sentences {
    fn of(alloc: Global, text: &[u8]) -> Result<Sentences, AllocError> {
        let text = without_comments(alloc, text)?;
        let starts = starts_of(alloc, &text)?;
        Ok(Sentences { text, starts })
    }

    fn start(&self, number: usize) -> usize {
        self.starts.get(number).copied().unwrap_or(0)
    }

    /// The last sentence that begins at or before this offset, or the text from this offset if there is none.
    fn at(&self, at: usize) -> &[u8] {
        let mut start = at;
        let mut end = self.text.len();
        for next in &self.starts {
            if *next > at {
                end = *next;
                break;
            }
            start = *next;
        }
        self.text.get(start..end).unwrap_or(b"")
    }

    /// The number of the sentence that causes this error. This is a binary search: if the first N sentences have the
    /// error, it remains when further sentences are added.
    fn first_with(&self, alloc: Global, limits: Limits, fault: LoadFault) -> usize {
        let mut without: usize = 0;
        let mut with = self.starts.len();
        for _ in 0..usize::BITS {
            let middle = without.midpoint(with);
            if middle == without {
                break;
            }
            let first = self.text.get(..self.start(middle)).unwrap_or(b"");
            match described_game(alloc, limits, first) {
                Err(DescriptionFault::Unfit(found)) if found == fault => with = middle,
                _ => without = middle,
            }
        }
        without
    }

    /// The offset of the error in the text, if the error has one.
    fn place_of(&self, alloc: Global, limits: Limits, fault: DescriptionFault) -> Option<usize> {
        match fault {
            DescriptionFault::Unread(
                KifFault::BadByte(at)
                | KifFault::Unopened(at)
                | KifFault::TooDeep(at)
                | KifFault::Unclosed(at),
            ) => Some(at),
            DescriptionFault::Unfit(LoadFault::Variable(number)) => {
                Some(variable_from(&self.text, self.start(number)))
            }
            DescriptionFault::Unfit(LoadFault::BadForm(number) | LoadFault::Misplaced(number)) =>
                Some(self.start(number)),
            DescriptionFault::Unread(_)
            | DescriptionFault::Unfit(LoadFault::NoRole)
            | DescriptionFault::Memory => None,
            DescriptionFault::Unfit(fault) => {
                Some(self.start(self.first_with(alloc, limits, fault)))
            }
        }
    }
}

/// The message for an error in a sentence, or in several sentences together.
fn words_of(fault: LoadFault) -> &'static str {
    match fault {
        LoadFault::Variable(_) => "a variable, but the rules must be ground",
        LoadFault::BadForm(_) => "neither a fact nor a rule",
        LoadFault::Misplaced(_) => {
            "true or does as a head, init or next as a condition, or a role with conditions"
        }
        LoadFault::NoRole => "no (role NAME), but a game needs at least one",
        LoadFault::RoleTwice => "a role that is named twice",
        LoadFault::TooLarge => "too large",
        LoadFault::Cyclic => "an atom that depends on itself",
        LoadFault::Depends => {
            "legal, goal or terminal that depends on does, or init that depends on true or does"
        }
        LoadFault::Memory => "out of memory",
    }
}

fn push_kind(
    limits: Limits,
    text: &[u8],
    fault: DescriptionFault,
    out: &mut String,
) -> Result<(), AllocError> {
    match fault {
        DescriptionFault::Unread(KifFault::BadByte(at)) => {
            let byte = text.get(at).copied().unwrap_or(0);
            write!(
                out,
                "the byte 0x{byte:02X}, which is allowed only in comments"
            )
        }
        DescriptionFault::Unread(KifFault::Unopened(_)) => {
            out.push_str("a parenthesis that closes no list")
        }
        DescriptionFault::Unread(KifFault::TooDeep(_)) => {
            out.push_str("a list nested more than 64 deep")
        }
        DescriptionFault::Unread(KifFault::Unclosed(_)) => {
            out.push_str("a list that is not closed")
        }
        DescriptionFault::Unread(fault) => write!(out, "{fault}"),
        DescriptionFault::Unfit(LoadFault::TooLarge) => {
            let (sentences, atomic) = (limits.sentences(), limits.atomic_sentences());
            write!(
                out,
                "more than {sentences} sentences, {atomic} different atomic sentences, {MAX_ROLES} roles or {MAX_MOVES} moves of one role"
            )?;
            let large = Limits::Large;
            match limits {
                Limits::Usual => write!(
                    out,
                    " (with --large, {} sentences and {} different atomic sentences)",
                    large.sentences(),
                    large.atomic_sentences()
                ),
                Limits::Large => Ok(()),
            }
        }
        DescriptionFault::Unfit(fault) => out.push_str(words_of(fault)),
        DescriptionFault::Memory => out.push_str("out of memory"),
    }
}

/// A line with a hint on how to fix the error, or an empty string. A text that is not empty but contains no lists may be
/// the name of a file.
fn remedy(text: &[u8], fault: DescriptionFault) -> &'static str {
    match fault {
        DescriptionFault::Unfit(LoadFault::NoRole) if !text.is_empty() && !text.contains(&b'(') => {
            "ggp_manager: --rules takes the rules themselves, and --rules-file the name of their file\n"
        }
        DescriptionFault::Unfit(LoadFault::Variable(_)) => {
            "ggp_manager: ggp-instantiate makes ground rules from rules with variables\n"
        }
        _ => "",
    }
}

/// Appends to `out` why a text does not describe a game within these limits: a hint on how to fix the text, if there is
/// one, and then the error.
pub fn push_description(
    alloc: Global,
    limits: Limits,
    text: &[u8],
    fault: DescriptionFault,
    out: &mut String,
) -> Result<(), AllocError> {
    out.push_str(remedy(text, fault))?;
    out.push_str("ggp_manager: ")?;
    let sentences = Sentences::of(alloc, text)?;
    let Some(at) = sentences.place_of(alloc, limits, fault) else {
        push_kind(limits, text, fault, out)?;
        return out.push_str("\n");
    };
    let Place { line, column } = Place::of(text, at);
    write!(out, "line {line}, column {column}: ")?;
    push_kind(limits, text, fault, out)?;
    out.push_str(": ")?;
    push_shown(out, &one_line(alloc, sentences.at(at))?)
}
