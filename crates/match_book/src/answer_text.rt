//! Reads the text of an answer.
ghost use Rattle.std.specs.Prelude.{◌≡◌, IfOk};
ghost use Rattle.match_book.specs.AnswerReading.{answer_reading};

use game_core::Text;
use kif_text::{KifFault, fold, print, read_one};
use std::alloc::{AllocError, Global};

/// The largest number of bytes of an answer. A match does not read a longer answer.
pub const MAX_ANSWER: usize = 4096;

/// The largest number of bytes of a reading: printing adds at most one space for each byte.
pub const MAX_READING: usize = 2 * MAX_ANSWER;

/// The canonical text, in lower case, of the expression that the answer spells, or `None` if the answer is too long or does
/// not spell exactly one expression.
#[tactic(auto, unfolding(crate::specs::AnswerReading::answer_reading))]
pub fn read_answer(alloc: Global, text: &[u8]) -> Result<Option<Text>, AllocError>
    ensures { IfOk result (λ o. o ≡ answer_reading text.now) }
{
    if text.len() > MAX_ANSWER {
        return Ok(None);
    }
    match read_one(alloc, text) {
        Ok(mut expr) => {
            fold(&mut expr);
            Ok(Some(print(alloc, &expr)?))
        }
        Err(KifFault::Memory) => Err(AllocError),
        Err(_) => Ok(None),
    }
}
