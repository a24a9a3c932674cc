//! The rest of a text in several parts.
ghost use Rattle.std.specs.Prelude.{◌≡◌, ◌<◌, ◌≤◌, ◌++◌, ℕ, List, length, drop};

/// The text from `place` to the end of the part that contains `place`. `place` counts from the beginning of the first
/// part.
pub(crate) fn rest_of<'a>(first: &'a [u8], second: &'a [u8], place: usize) -> &'a [u8]
    requires { place ≤ length (first.now ++ second.now) }
    ensures front { (more : List ℕ) × (result.now ++ more ≡ drop place (first.now ++ second.now)) }
    ensures some { place < length (first.now ++ second.now) → 0 < length result.now }
{
    if place < first.len() {
        &first[place..]
    } else {
        &second[place - first.len()..]
    }
}

/// Like `rest_of`, for three parts.
pub(crate) fn rest_of_three<'a>(
    first: &'a [u8],
    second: &'a [u8],
    third: &'a [u8],
    place: usize,
) -> &'a [u8]
    requires { place ≤ length (first.now ++ (second.now ++ third.now)) }
    ensures front { (more : List ℕ) × (result.now ++ more ≡ drop place (first.now ++ (second.now ++ third.now))) }
    ensures some { place < length (first.now ++ (second.now ++ third.now)) → 0 < length result.now }
{
    if place < first.len() {
        &first[place..]
    } else {
        rest_of(second, third, place - first.len())
    }
}
