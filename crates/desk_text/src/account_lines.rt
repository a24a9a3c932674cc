//! Recognizes the lines of call logs.
ghost use Rattle.std.specs.Prelude.{◌≡◌, ◌-◌, length, slice_get};
ghost use Rattle.desk_text.specs.AccountLines.{ends_as_reply, is_account_line, is_call_word};

use crate::words::first_piece;
use game_core::numeral::are_digits;

fn is_call_word(word: &[u8]) -> bool
    ensures { result ≡ is_call_word word.now }
{
    word == b"open".as_slice()
        || word == b"strict".as_slice()
        || word == b"next".as_slice()
        || word == b"submit".as_slice()
        || word == b"miss".as_slice()
        || word == b"query".as_slice()
        || word == b"abort".as_slice()
}

/// Whether the last byte is a letter, a digit or a closing parenthesis, as in every reply.
fn ends_as_reply(text: &[u8]) -> bool
    ensures { result ≡ ends_as_reply (slice_get text.now (length text.now - 1)) }
{
    match text.last() {
        Some(byte) => byte.is_ascii_alphanumeric() || *byte == b')',
        None => false,
    }
}

/// Whether the line has the form of a line of a call log: decimal digits, a tab, a call, a tab, a reply. A line that ends
/// with a record does not have this form.
pub fn is_account_line(line: &[u8]) -> bool
    ensures { result ≡ is_account_line line.now }
{
    let (number, Some(fields)) = first_piece(line, b'\t') else {
        return false;
    };
    let (call, Some(last)) = first_piece(fields, b'\t') else {
        return false;
    };
    let (word, _) = first_piece(call, b' ');
    let (reply, more) = first_piece(last, b'\t');
    match more {
        Some(_) => false,
        None => are_digits(number) && is_call_word(word) && ends_as_reply(reply),
    }
}
