//! Splits a line into words, and reads numbers.
ghost use Rattle.std.specs.Prelude.{◌≡◌, ◌^◌, ◌≤◌, ◌==◌, ◌∷◌, IsTrue, MatchOption, option_copied, position};
ghost use Rattle.std.specs.Str.Parse.{digits_value};
ghost use Rattle.game_core.specs.Numerals.{are_digits, plain_number};
ghost use Rattle.desk_text.specs.Words.{pieces, pieces_behind};

use game_core::numeral::is_plain_numeral;

/// The index of the first separator.
pub fn piece_end(text: &[u8], separator: u8) -> Option<usize>
    ensures { result ≡ position (λ b. b == separator) text.now }
{
    text.iter().position(|b| *b == separator)
}

/// The text before the first separator, and the text after it.
pub fn first_piece(text: &[u8], separator: u8) -> (&[u8], Option<&[u8]>)
    ensures { pieces separator text.now ≡ result.0.now ∷ pieces_behind separator (option_copied result.1) }
{
    match piece_end(text, separator) {
        Some(end) => (&text[..end], Some(&text[end + 1..])),
        None => (text, None),
    }
}

/// The number with these digits, or `None` if it does not fit into 64 bits.
fn digits_value(digits: &[u8]) -> Option<u64>
    requires { IsTrue (are_digits digits.now) }
    ensures { MatchOption result (2 ^ 64 ≤ digits_value 10 digits.now) (λ number. number ≡ digits_value 10 digits.now) }
{
    let mut number = 0;
    for digit in digits {
        let digit = u64::from(*digit - b'0');
        if number > (u64::MAX - digit) / 10 {
            return None;
        }
        number = number * 10 + digit;
    }
    Some(number)
}

/// The number that the word represents, in decimal digits without leading zeros, or `None` if there is no such number or it
/// exceeds `limit`.
pub fn plain_number_up_to(word: &[u8], limit: u64) -> Option<u64>
    ensures { result ≡ plain_number word.now limit }
{
    if !is_plain_numeral(word) {
        return None;
    }
    let number = digits_value(word)?;
    if number <= limit { Some(number) } else { None }
}
