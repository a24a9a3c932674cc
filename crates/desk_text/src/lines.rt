//! Splits an input into lines.
ghost use Rattle.std.specs.Prelude.{◌≡◌, ◌<◌, ◌∷◌, length};
ghost use Rattle.std.specs.Str.Lines.{lines};

use crate::words::piece_end;
use game_core::lines::without_return;

/// The first line of a text that is not empty, and the text after it.
pub fn first_line(text: &[u8]) -> (&[u8], &[u8])
    requires { 0 < length text.now }
    ensures cut { lines text.now ≡ result.0.now ∷ lines result.1.now }
    ensures shorter { length result.1.now < length text.now }
{
    match piece_end(text, b'\n') {
        None => (text, &text[text.len()..]),
        Some(end) => (without_return(&text[..end]), &text[end + 1..]),
    }
}
