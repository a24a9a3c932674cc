//! How a text is shown on one text line.
ghost use Rattle.std.specs.Prelude.{◌≡◌, map, take};
ghost use Rattle.std.specs.Fmt.{WritesOnOk};
ghost use Rattle.match_log.specs.ShownTexts.{further, reported_byte, shown_byte};

use shared_text::SharedText;
use std::fmt;
use std::marker::Model;

/// The number of bytes of a text that are shown.
const SHOWN: usize = 200;

/// The first 200 bytes of a text. `?` replaces bytes outside 0x20 to 0x7E, and two dots replace the remaining bytes. In
/// contracts, it is the text.
#[derive(Drop)]
pub struct Shown<'a> {
    /// The parts of the text in order.
    parts: (&'a [u8], &'a [u8], &'a [u8]),
}

impl<'a> Model for Shown<'a> {
    ghost use Rattle.std.specs.Prelude.{List, ℕ, ◌++◌};

    ghost Value = { List ℕ };

    ghost view = { λ s. s.parts.0.now ++ (s.parts.1.now ++ s.parts.2.now) };
}

/// The byte that is shown for a byte.
fn shown_byte(byte: u8) -> u8
    ensures { result ≡ shown_byte byte }
{
    if byte == b' ' || byte.is_ascii_graphic() {
        byte
    } else {
        b'?'
    }
}

/// The byte that a report shows for a byte. A report may have several text lines, so a line feed stays.
pub fn reported_byte(byte: u8) -> u8
    ensures { result ≡ reported_byte byte }
{
    if byte == b'\n' {
        byte
    } else {
        shown_byte(byte)
    }
}

/// Writes the first bytes of a part, at most `room` of them.
fn write_part<F: fmt::Write>(f: &mut fmt::Formatter<F>, part: &[u8], room: usize) -> fmt::Result
    ensures { WritesOnOk F.write_str_gives f.old result (map shown_byte (take room part.now)) f.new }
{
    for byte in &part[..part.len().min(room)] {
        f.write_char(char::from(shown_byte(*byte)))?;
    }
    Ok(())
}

impl<'a> Shown<'a> {
    /// Shows a text.
    pub fn text(text: &'a [u8]) -> Shown<'a>
        ensures { result ≡ text.now }
    {
        Shown {
            parts: (text, b"".as_slice(), b"".as_slice()),
        }
    }

    /// Shows a message.
    pub fn message(message: &'a SharedText<'_>) -> Shown<'a>
        ensures { result ≡ message.now }
    {
        Shown {
            parts: message.parts(),
        }
    }

    /// The text that replaces the bytes that are not shown.
    fn further(&self) -> &'static str
        ensures { result.now ≡ further self.now }
    {
        let (before, shared, after) = self.parts;
        let length = before.len().saturating_add(shared.len());
        if length.saturating_add(after.len()) > SHOWN {
            ".."
        } else {
            ""
        }
    }
}

impl fmt::Display for Shown<'_> {
    ghost use Rattle.std.specs.Prelude.{Some};
    ghost use Rattle.match_log.specs.ShownTexts.{shown_text};

    ghost output = { λ shown. Some (shown_text shown) };

    fn fmt<F: fmt::Write>(&self, f: &mut fmt::Formatter<F>) -> fmt::Result {
        let (before, shared, after) = self.parts;
        let left = SHOWN.saturating_sub(before.len());
        let last = left.saturating_sub(shared.len());
        write_part(f, before, SHOWN)?;
        write_part(f, shared, left)?;
        write_part(f, after, last)?;
        f.write_str(self.further())
    }
}
