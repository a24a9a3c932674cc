//! Numbers on the command line.
ghost use Rattle.std.specs.Prelude.{◌≡◌, ◌≤◌, IfSome};
ghost use Rattle.match_plans.specs.Numbers.{at_least, decimal_of};

use game_core::numeral::are_digits;

/// Reads a number in decimal digits. Leading zeros are accepted. Returns `None` if the text is empty, contains another byte, or
/// exceeds `limit`.
pub fn decimal(text: &str, limit: u64) -> Option<u64>
    ensures within { IfSome result (λ number. number ≤ limit) }
    ensures value { result ≡ decimal_of text.now limit }
{
    if !are_digits(text.as_bytes()) {
        return None;
    }
    let Ok(number) = text.parse::<u64>() else {
        return None;
    };
    if number <= limit { Some(number) } else { None }
}

/// Reads a number that is at least `least`, as `decimal` does.
pub fn decimal_from(text: &str, least: u64, limit: u64) -> Option<u64>
    ensures within { IfSome result (λ number. number ≤ limit) }
    ensures value { result ≡ at_least least (decimal_of text.now limit) }
{
    let number = decimal(text, limit)?;
    if number >= least { Some(number) } else { None }
}
