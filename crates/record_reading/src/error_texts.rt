//! The errors that a record may have for a move.
ghost use Rattle.std.specs.Prelude.{◌≡◌, ◌≤◌, ◌↔◌, All, IfOk, IsTrue, length};
ghost use Rattle.game_core.specs.Canonical.{IsFoldedText};
ghost use Rattle.match_book.specs.AnswerReading.{max_reading};
ghost use Rattle.record_reading.specs.RecordParts.{IsErrorText};

use crate::record_words::{after, mark_of};
use game_core::{Text, Texts};
use kif_text::laws::{folded_text_reads_back, reading_is_proper};
use kif_text::{KifFault, fold, print, read_one};
use match_book::{ILLEGAL_PREFIX, MAX_READING, RETIRED, UNREADABLE};
use std::alloc::{AllocError, Global};

/// Whether this text can be the reading of an answer: a canonical text in lower case of at most `MAX_READING` bytes.
fn is_folded_text(alloc: Global, text: &[u8]) -> Result<bool, AllocError>
    ensures { IfOk result (λ b. IsTrue b ↔ (IsFoldedText text.now × (length text.now ≤ max_reading))) }
{
    reading_is_proper();
    folded_text_reads_back();
    if text.len() > MAX_READING {
        return Ok(false);
    }
    match read_one(alloc, text) {
        Ok(mut expr) => {
            fold(&mut expr);
            let printed = print(alloc, &expr)?;
            Ok(printed.as_slice() == text)
        }
        Err(KifFault::Memory) => Err(AllocError),
        Err(_) => Ok(false),
    }
}

/// Whether the text is an error: empty if the match took the role's answer, or else the reason for a replaced move. The empty
/// text, `TO` and `CE` are also texts of marks.
fn is_error_text(alloc: Global, text: &[u8]) -> Result<bool, AllocError>
    ensures { IfOk result (λ b. IsTrue b ↔ IsErrorText text.now) }
{
    if mark_of(text).is_some() {
        return Ok(true);
    }
    if text == UNREADABLE {
        return Ok(true);
    }
    if text == RETIRED {
        return Ok(true);
    }
    match after(text, ILLEGAL_PREFIX) {
        Some(read) => is_folded_text(alloc, read),
        None => Ok(false),
    }
}

fn are_error_texts(alloc: Global, texts: &[Text]) -> Result<bool, AllocError>
    ensures { IfOk result (λ b. IsTrue b ↔ All IsErrorText texts.now) }
{
    for text in texts {
        if !is_error_text(alloc, text.as_slice())? {
            return Ok(false);
        }
    }
    Ok(true)
}

/// Whether each turn has one error for each role.
pub fn are_errors(alloc: Global, turns: &[Texts], roles: usize) -> Result<bool, AllocError>
    ensures { IfOk result (λ b. IsTrue b ↔ All (λ texts. (length texts ≡ roles) × All IsErrorText texts) turns.now) }
{
    for turn in turns {
        let errors = turn.as_slice();
        if errors.len() != roles || !are_error_texts(alloc, errors)? {
            return Ok(false);
        }
    }
    Ok(true)
}
