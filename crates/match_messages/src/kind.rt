//! The kinds of messages. The first word of a message determines its kind.
ghost use Rattle.std.specs.Prelude.{◌↔◌, IsTrue, MatchOption};
ghost use mathlib.Core.List.{IsPrefix};

use shared_text::SharedText;

/// The kind of a message.
#[derive(Clone, Copy, PartialEq, Eq)]
pub enum MessageKind {
    Info,
    /// A match begins.
    Start,
    /// The player must choose a move.
    Play,
    /// The match has ended.
    Stop,
    /// The match was aborted.
    Abort,
}

/// Whether the text begins with this word. The word may be split between parts of the text.
fn begins_with(text: &SharedText<'_>, word: &[u8]) -> bool
    ensures { IsTrue result ↔ IsPrefix word.now text.now }
{
    if text.len() < word.len() {
        return false;
    }
    for (place, byte) in word.iter().enumerate() {
        let left = text.rest(place);
        if left[0] != *byte {
            return false;
        }
    }
    true
}

impl MessageKind {
    ghost use Rattle.match_messages.specs.MessageKinds.{kind_word};
    ghost use Rattle.match_messages.specs.declared.kind.MessageKind.{MessageKind};

    /// The kind of a message, from its first word, or `None` if no kind has that word.
    pub fn of(message: &SharedText<'_>) -> Option<MessageKind>
        ensures { MatchOption result ((kind : MessageKind) → ¬ (IsPrefix (kind_word kind) message.now)) (λ kind. IsPrefix (kind_word kind) message.now) }
    {
        if begins_with(message, b"(INFO") {
            return Some(MessageKind::Info);
        }
        if begins_with(message, b"(START ") {
            return Some(MessageKind::Start);
        }
        if begins_with(message, b"(PLAY ") {
            return Some(MessageKind::Play);
        }
        if begins_with(message, b"(STOP ") {
            return Some(MessageKind::Stop);
        }
        if begins_with(message, b"(ABORT ") {
            return Some(MessageKind::Abort);
        }
        None
    }
}
