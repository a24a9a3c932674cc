//! Tests of ids, names of players, clocks and strikes.
ghost use Rattle.std.specs.Prelude.{◌≡◌, ◌&&◌};
ghost use Rattle.std.specs.List.{list_all};
ghost use Rattle.desk_calls.specs.Names.{is_between, max_name, is_name_byte, is_name, is_clock, is_strikes};

use game_core::Text;

/// The largest number of bytes of a name.
const MAX_NAME: usize = 64;

/// The largest number of seconds on a clock.
pub const MAX_CLOCK: u32 = 86_400;

/// The largest lawful value of `strikes`, the number of replaced moves in a row that retire a role.
pub const MAX_STRIKES: u32 = 255;

fn is_name_byte(byte: u8) -> bool
    ensures { result ≡ is_name_byte byte }
{
    byte.is_ascii_alphanumeric() || byte == b'-' || byte == b'_' || byte == b'.'
}

fn is_name_length(bytes: usize) -> bool
    ensures { result ≡ is_between 1 max_name bytes }
{
    1 <= bytes && bytes <= MAX_NAME
}

fn are_name_bytes(text: &[u8]) -> bool
    ensures { result ≡ list_all is_name_byte text.now }
{
    for byte in text {
        if !is_name_byte(*byte) {
            return false;
        }
    }
    true
}

/// Whether the text is a lawful id, or a lawful name of a player.
pub fn is_name(text: &[u8]) -> bool
    ensures { result ≡ is_name text.now }
{
    is_name_length(text.len()) && are_name_bytes(text)
}

/// Whether all texts are lawful names.
pub fn are_names(texts: &[Text]) -> bool
    ensures { result ≡ list_all is_name texts.now }
{
    for text in texts {
        if !is_name(text.as_slice()) {
            return false;
        }
    }
    true
}

/// Whether a clock may have this many seconds.
pub fn is_clock(seconds: u32) -> bool
    ensures { result ≡ is_clock seconds }
{
    1 <= seconds && seconds <= MAX_CLOCK
}

/// Whether both clocks are lawful.
pub fn are_clocks(start: u32, play: u32) -> bool
    ensures { result ≡ (is_clock start && is_clock play) }
{
    is_clock(start) && is_clock(play)
}

/// Whether a match may retire a role after this many replaced moves in a row. 0 means never.
pub fn is_strikes(strikes: u32) -> bool
    ensures { result ≡ is_strikes strikes }
{
    strikes <= MAX_STRIKES
}
