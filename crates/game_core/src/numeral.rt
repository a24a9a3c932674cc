//! Numbers in decimal digits, read up to a limit.
ghost use Rattle.std.specs.Prelude.{◌≡◌, ◌^◌, ◌<◌, IsTrue};
ghost use Rattle.game_core.specs.Numerals.{are_digits, is_plain_numeral, number_up_to, plain_number};

/// Whether a word consists of one or more decimal digits.
pub fn are_digits(word: &[u8]) -> bool
    ensures { result ≡ are_digits word.now }
{
    !word.is_empty() && word.iter().all(|byte| byte.is_ascii_digit())
}

/// Whether a word consists of decimal digits without leading zeros.
pub fn is_plain_numeral(word: &[u8]) -> bool
    ensures { result ≡ is_plain_numeral word.now }
{
    are_digits(word) && (word.len() == 1 || word[0] != b'0')
}

/// The number that the digits represent, or `None` if it exceeds the limit. Any number of digits is allowed.
pub fn number_up_to(digits: &[u8], limit: usize) -> Option<usize>
    requires digits { IsTrue (are_digits digits.now) }
    requires small { limit < 2 ^ 32 }
    ensures { result ≡ number_up_to digits.now limit }
{
    let mut number = 0;
    for digit in digits {
        number = number * 10 + usize::from(*digit - b'0');
        if number > limit {
            return None;
        }
    }
    Some(number)
}

/// The number that the word represents, or `None` if the word is not a plain numeral or the number exceeds the limit.
pub fn plain_number(word: &[u8], limit: usize) -> Option<usize>
    requires { limit < 2 ^ 32 }
    ensures { result ≡ plain_number word.now limit }
{
    if !is_plain_numeral(word) {
        return None;
    }
    number_up_to(word, limit)
}
