//! The words of a record: marks, phases and causes.
ghost use Rattle.std.specs.Prelude.{◌≡◌, ◌≢◌, ◌^◌, ◌<◌, ◌++◌, IfSome, List, MatchOption, Some, ℕ};
ghost use Rattle.std.specs.Fmt.{decimal};
ghost use Rattle.record_reading.specs.Internal.JsonValues.{data_in};
ghost use Rattle.desk_calls.specs.Phases.{phase_text};
ghost use Rattle.match_book.specs.Marks.{mark_text};
ghost use Rattle.record_reading.specs.RecordParts.{NamesRole};
ghost use Rattle.record_reading.specs.RecordTree.{cause_text, cause_tree, mark_tree, phase_tree};
ghost use Rattle.record_reading.specs.Internal.Shown.{AnyShape, Shows};

use crate::json_values::{bytes_in, is_null};
use desk_calls::{Phase, phase_text};
use game_core::laws::numerals_read_back;
use game_core::numeral::plain_number;
use match_book::{Cause, Mark};
use serde_json::Value;

/// The rest of the text after this word, if the text begins with the word.
pub fn after<'a>(text: &'a [u8], word: &[u8]) -> Option<&'a [u8]>
    ensures { MatchOption result ((rest : List ℕ) → text.now ≢ word.now ++ rest) (λ rest. text.now ≡ word.now ++ rest.now) }
{
    text.strip_prefix(word)
}

/// The mark with this text.
pub fn mark_of(text: &[u8]) -> Option<Mark>
    ensures { Shows mark_text AnyShape (Some text.now) result }
{
    if text == Mark::Clear.text() {
        Some(Mark::Clear)
    } else if text == Mark::TimeOut.text() {
        Some(Mark::TimeOut)
    } else if text == Mark::ConnectionError.text() {
        Some(Mark::ConnectionError)
    } else {
        None
    }
}

/// A mark, or no mark if the value is null.
pub fn mark_in(found: Option<&Value>) -> Option<Option<Mark>>
    ensures { Shows mark_tree AnyShape (data_in found.entry) result }
{
    if is_null(found) {
        return Some(None);
    }
    let mark = mark_of(bytes_in(found)?)?;
    Some(Some(mark))
}

fn phase_of(text: &[u8]) -> Option<Phase>
    ensures { Shows phase_text AnyShape (Some text.now) result }
{
    if text == phase_text(Phase::Starting) {
        Some(Phase::Starting)
    } else if text == phase_text(Phase::Playing) {
        Some(Phase::Playing)
    } else if text == phase_text(Phase::Stopping) {
        Some(Phase::Stopping)
    } else if text == phase_text(Phase::Finished) {
        Some(Phase::Finished)
    } else if text == phase_text(Phase::Aborting) {
        Some(Phase::Aborting)
    } else if text == phase_text(Phase::Aborted) {
        Some(Phase::Aborted)
    } else {
        None
    }
}

/// The phase with this text.
pub fn phase_in(found: Option<&Value>) -> Option<Phase>
    ensures { Shows phase_tree AnyShape (data_in found.entry) result }
{
    phase_of(bytes_in(found)?)
}

/// The number of a role, if the digits represent one without leading zeros.
fn role_of(digits: &[u8], roles: usize) -> Option<usize>
    requires { roles < 2 ^ 32 }
    ensures { Shows decimal (λ role. role < roles) (Some digits.now) result }
{
    numerals_read_back();
    let role = plain_number(digits, roles)?;
    if role < roles { Some(role) } else { None }
}

fn cause_of(text: &[u8], roles: usize) -> Option<Cause>
    requires { roles < 2 ^ 32 }
    ensures { Shows cause_text (NamesRole roles) (Some text.now) result }
{
    if text == b"asked".as_slice() {
        return Some(Cause::Asked);
    }
    if text == b"toolong".as_slice() {
        return Some(Cause::TooLong);
    }
    if text == b"allretired".as_slice() {
        return Some(Cause::AllRetired);
    }
    if let Some(digits) = after(text, b"nolegal ") {
        let role = role_of(digits, roles)?;
        return Some(Cause::NoLegal(role));
    }
    if let Some(digits) = after(text, b"nogoal ") {
        let role = role_of(digits, roles)?;
        return Some(Cause::NoGoal(role));
    }
    None
}

/// A cause, or no cause if the value is null. A cause with a role must name a role of the game.
pub fn cause_in(found: Option<&Value>, roles: usize) -> Option<Option<Cause>>
    requires { roles < 2 ^ 32 }
    ensures { Shows cause_tree (λ why. IfSome why (NamesRole roles)) (data_in found.entry) result }
{
    if is_null(found) {
        return Some(None);
    }
    let cause = cause_of(bytes_in(found)?, roles)?;
    Some(Some(cause))
}
