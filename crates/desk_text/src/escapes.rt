//! The escapes of call logs: the backslash, and each byte that is not visible ASCII, is written as `\xHH`.
ghost use Rattle.std.specs.Prelude.{◌≡◌, ◌<◌, ◌≤◌, ◌++◌, IfSome, OnOk, drop, length, option_map};
ghost use Rattle.desk_text.specs.Escapes.{stands_from, hex_digit, escape, escaped_from, hex_value, escaped_byte, before_rest, bytes_taken, read_as, unescaped, all_unescaped};

use game_core::Text;
use std::alloc::AllocError;

/// Whether a byte is written without an escape. `least` is the lowest byte that is not escaped.
fn stands(least: u8, byte: u8) -> bool
    ensures { result ≡ stands_from least byte }
{
    byte >= least && byte < 127 && byte != b'\\'
}

fn hex_digit(number: u8) -> u8
    requires { number < 16 }
    ensures { result ≡ hex_digit number }
{
    if number < 10 {
        b'0' + number
    } else {
        b'a' + (number - 10)
    }
}

fn push_escape(out: &mut Vec<u8>, byte: u8) -> Result<(), AllocError>
    ensures { OnOk result (out.new.items ≡ out.old.items ++ escape byte) }
{
    out.extend_from_slice(&[b'\\', b'x', hex_digit(byte / 16), hex_digit(byte % 16)])
}

/// Appends a text to `out`, and escapes the bytes below `least` and above the tilde, and the backslash.
pub fn push_escaped(out: &mut Vec<u8>, text: &[u8], least: u8) -> Result<(), AllocError>
    ensures { OnOk result (out.new.items ≡ out.old.items ++ escaped_from least text.now) }
{
    for byte in text {
        if stands(least, *byte) {
            out.push(*byte)?;
        } else {
            push_escape(out, *byte)?;
        }
    }
    Ok(())
}

fn hex_value(digit: u8) -> Option<u8>
    ensures value { result ≡ hex_value digit }
    ensures small { IfSome result (λ value. value < 16) }
{
    match digit {
        b'0'..=b'9' => Some(digit - b'0'),
        b'a'..=b'f' => Some(digit - b'a' + 10),
        _ => None,
    }
}

fn escaped_byte(high: u8, low: u8) -> Option<u8>
    ensures { result ≡ escaped_byte high low }
{
    let high = hex_value(high)?;
    let low = hex_value(low)?;
    Some(high * 16 + low)
}

/// The first byte of a text without its escape, and the number of bytes that it takes in the text, or `None` if a backslash
/// is not followed by `xHH`.
fn first_byte(text: &[u8]) -> Option<(u8, usize)>
    requires { 0 < length text.now }
    ensures read { unescaped text.now ≡ before_rest (option_map (λ r. r.0) result) (unescaped (drop (bytes_taken result) text.now)) }
    ensures some { IfSome result (λ r. 0 < r.1) }
    ensures within { IfSome result (λ r. r.1 ≤ length text.now) }
{
    let byte = text[0];
    if byte != b'\\' {
        return Some((byte, 1));
    }
    if text.len() < 4 || text[1] != b'x' {
        return None;
    }
    let byte = escaped_byte(text[2], text[3])?;
    Some((byte, 4))
}

/// Removes the escapes from these bytes. Returns false if a backslash is not followed by `xHH`.
fn unescape_bytes(bytes: &mut Vec<u8>) -> bool
    ensures { unescaped bytes.old.items ≡ read_as result bytes.new.items }
{
    let mut kept = 0;
    let mut place = 0;
    while place < bytes.len() {
        let Some((byte, taken)) = first_byte(&bytes[place..]) else {
            return false;
        };
        bytes[kept] = byte;
        kept += 1;
        place += taken;
    }
    bytes.truncate(kept);
    true
}

/// Removes the escapes from a text. Returns false if a backslash is not followed by `xHH`.
pub fn unescape(text: &mut Text) -> bool
    ensures { unescaped text.old ≡ read_as result text.new }
{
    unescape_bytes(&mut text.bytes)
}

/// Removes the escapes from these texts. Returns false if a backslash is not followed by `xHH`.
pub fn unescape_all(texts: &mut Vec<Text>) -> bool
    ensures { all_unescaped texts.old.items ≡ read_as result texts.new.items }
{
    for place in 0..texts.len() {
        if !unescape(&mut texts[place]) {
            return false;
        }
    }
    true
}
