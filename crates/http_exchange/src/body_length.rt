//! The length of a body, from the fields of a head.
ghost use Rattle.std.specs.Prelude.{◌≡◌, All, IsTrue, IfErr, IfOk, IfSome, MatchResult, map, length};
ghost use Rattle.std.specs.Char.{to_ascii_lowercase};
ghost use Rattle.std.specs.Option.{option_copied};
ghost use Rattle.httparse.specs.Spans.{IsHeaderWithin, header_bytes};
ghost use Rattle.game_core.specs.Numerals.{are_digits};
ghost use Rattle.http_exchange.specs.BodyLength.{body_length, has_name, length_fault, value_fault, wrong};
ghost use Rattle.http_exchange.specs.Internal.Heads.{agrees, length_of};

use crate::numeral::is_same_number;
use crate::wire_fault::FrameFault;
use game_core::numeral::are_digits;
use httparse::spans::HeaderSpan;

const CONTENT_LENGTH: &[u8] = b"content-length";

const TRANSFER_ENCODING: &[u8] = b"transfer-encoding";

/// Whether a name is `small`, in upper or lower case. `small` is in lower case.
fn has_name(name: &[u8], small: &[u8]) -> bool
    requires { map to_ascii_lowercase small.now ≡ small.now }
    ensures { result ≡ has_name small.now name.now }
{
    name.eq_ignore_ascii_case(small)
}

/// Whether a value consists of digits and, if there is an earlier value, writes the same number.
fn agrees(before: Option<&[u8]>, value: &[u8]) -> bool
    requires { IfSome (option_copied before) (λ digits. IsTrue (are_digits digits)) }
    ensures { result ≡ agrees (option_copied before.entry) value.now }
{
    match before {
        None => are_digits(value),
        Some(before) => are_digits(value) && is_same_number(before, value),
    }
}

/// The error of a value that does not agree with the earlier values.
fn value_fault(value: &[u8]) -> FrameFault
    ensures { result ≡ value_fault value.now }
{
    if are_digits(value) {
        FrameFault::TwoLengths
    } else {
        FrameFault::NoNumber
    }
}

/// The digits of the one length that the fields give, or `None` if no field has a length. The error says why the fields
/// give no usable length.
pub(crate) fn said_length<'b>(
    buf: &'b [u8],
    headers: &[HeaderSpan],
) -> Result<Option<&'b [u8]>, FrameFault>
    requires { All (IsHeaderWithin (length buf.now)) headers.now }
    ensures value { MatchResult result
        (λ said. body_length (map (header_bytes buf.now) headers.now) ≡ length_of (option_copied said))
        (λ _. body_length (map (header_bytes buf.now) headers.now) ≡ wrong) }
    ensures fault { IfErr result (λ fault. fault ≡ length_fault (map (header_bytes buf.now) headers.now)) }
    ensures numeral { IfOk result (λ said. IfSome (option_copied said) (λ digits. IsTrue (are_digits digits))) }
{
    let mut said = None;
    for header in headers {
        let name = header.name.of(buf);
        if has_name(name, TRANSFER_ENCODING) {
            return Err(FrameFault::TransferEncoding);
        }
        if !has_name(name, CONTENT_LENGTH) {
            continue;
        }
        let value = header.value.of(buf);
        if !agrees(said, value) {
            return Err(value_fault(value));
        }
        said = Some(value);
    }
    Ok(said)
}
