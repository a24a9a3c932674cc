//! Compares numbers in decimal digits. Leading zeros do not matter.
ghost use Rattle.std.specs.Prelude.{◌≡◌, ◌≢◌, ◌==◌, IsTrue, slice_index};
ghost use Rattle.std.specs.List.{list_all};
ghost use Rattle.std.specs.Char.{is_ascii_digit};
ghost use Rattle.std.specs.Str.Parse.{digits_value};
ghost use Rattle.game_core.specs.Numerals.{are_digits, digit_zero};

fn without_leading_zeros(digits: &[u8]) -> &[u8]
    requires { IsTrue (list_all is_ascii_digit digits.now) }
    ensures number { digits_value 10 result.now ≡ digits_value 10 digits.now }
    ensures digits { IsTrue (list_all is_ascii_digit result.now) }
    ensures first { slice_index result.now 0 ≢ digit_zero }
{
    let mut rest = digits;
    while let [b'0', more @ ..] = rest {
        rest = more;
    }
    rest
}

/// Whether two runs of digits write the same number.
pub(crate) fn is_same_number(one: &[u8], other: &[u8]) -> bool
    requires one { IsTrue (are_digits one.now) }
    requires other { IsTrue (are_digits other.now) }
    ensures { result ≡ (digits_value 10 one.now == digits_value 10 other.now) }
{
    without_leading_zeros(one) == without_leading_zeros(other)
}
