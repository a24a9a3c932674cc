//! Parses the head of a message, and finds where the body begins and how long it is.
ghost use Rattle.std.specs.Prelude.{◌≡◌, ◌<◌, ◌^◌, All, map, length};
ghost use Rattle.httparse.specs.Spans.{IsHeaderWithin, header_bytes};
ghost use Rattle.http_exchange.specs.BodyLength.{body_length, length_fault};
ghost use Rattle.http_exchange.specs.HttpHead.{HeadIs, framed_by, front, max_body};
ghost use Rattle.http_exchange.specs.Internal.Heads.{IsKnown, StartsWithin, part_of};

use crate::body_length::said_length;
use crate::wire_fault::FrameFault;
use game_core::numeral::number_up_to;
use httparse::spans::{EMPTY_HEADER_SPAN, HeaderSpan, parse_request, parse_response};
use httparse::{Error, Status};

/// Whether a message is a request or a reply.
#[derive(Clone, Copy)]
pub enum HttpKind {
    Reply,
    Request,
}

/// Where a body begins, and its length, if the head has one. Without a length the body continues to the end of the stream.
#[derive(Clone, Copy)]
pub struct Frame {
    pub start: usize,
    pub length: Option<usize>,
}

/// The part of a head that is not valid HTTP.
#[derive(Clone, Copy, PartialEq, Eq)]
pub enum HeadPart {
    /// The version is neither 1.0 nor 1.1, or a reply does not begin with a version and a space.
    Version,
    /// The version is not followed by a status of three digits, or the status is followed by a control byte.
    Status,
    /// A request's method is not `POST`, or its target is not text.
    Method,
    /// A line before the empty line does not begin with a name that is directly followed by a colon.
    FieldName,
    /// The value of a field contains a control byte.
    FieldValue,
    /// A line ends with neither CR LF nor LF.
    LineEnd,
    /// There are more than 64 fields.
    FieldCount,
}

impl HeadPart {
    /// The text of the error.
    pub(crate) fn words(self) -> &'static str {
        match self {
            HeadPart::Version => "it does not begin with HTTP/1.0 or HTTP/1.1 and a space",
            HeadPart::Status => "its status is not three digits, or a control byte follows it",
            HeadPart::Method => "its method is not POST, or its target is not text",
            HeadPart::FieldName =>
                "a field does not begin with a name directly followed by a colon",
            HeadPart::FieldValue => "a field's value has a control byte",
            HeadPart::LineEnd => "a line ends with neither CR LF nor LF",
            HeadPart::FieldCount => "it has more than 64 fields",
        }
    }
}

/// The result of parsing a head from the bytes so far.
#[derive(Clone, Copy)]
pub enum Head {
    /// More bytes may complete a head.
    Unfinished,
    Whole(Frame),
    /// This part is not valid HTTP.
    Bad(HeadPart),
    Refused(FrameFault),
}

/// The largest number of bytes of a head.
pub(crate) const MAX_HEAD: usize = 16_384;

/// The largest number of fields of a head.
const MAX_FIELDS: usize = 64;

const GOOD_STATUS: u16 = 200;

const POST: &[u8] = b"POST";

/// The largest number of bytes of a reply's body.
pub(crate) const MAX_REPLY_BODY: usize = 65_536;

/// The largest number of bytes of a request's body.
const MAX_REQUEST_BODY: usize = 2_097_152;

fn max_body(kind: HttpKind) -> usize
    ensures value { result ≡ max_body kind }
    ensures small { result < 2 ^ 32 }
{
    match kind {
        HttpKind::Reply => MAX_REPLY_BODY,
        HttpKind::Request => MAX_REQUEST_BODY,
    }
}

/// The result for a head of this size, according to the length in its fields.
fn framed(kind: HttpKind, size: usize, buf: &[u8], headers: &[HeaderSpan]) -> Head
    requires { All (IsHeaderWithin (length buf.now)) headers.now }
    ensures { result ≡ framed_by kind size (length_fault (map (header_bytes buf.now) headers.now)) (body_length (map (header_bytes buf.now) headers.now)) }
{
    match said_length(buf, headers) {
        Err(refusal) => Head::Refused(refusal),
        Ok(None) => match kind {
            HttpKind::Reply => Head::Whole(Frame {
                start: size,
                length: None,
            }),
            HttpKind::Request => Head::Refused(FrameFault::NoLength),
        },
        Ok(Some(digits)) => match number_up_to(digits, max_body(kind)) {
            Some(length) => Head::Whole(Frame {
                start: size,
                length: Some(length),
            }),
            None => Head::Refused(FrameFault::TooLong),
        },
    }
}

fn part_of(error: Error) -> HeadPart
    ensures { result ≡ part_of error }
{
    match error {
        Error::Version => HeadPart::Version,
        Error::Status => HeadPart::Status,
        Error::Token => HeadPart::Method,
        Error::HeaderName => HeadPart::FieldName,
        Error::HeaderValue => HeadPart::FieldValue,
        Error::NewLine => HeadPart::LineEnd,
        Error::TooManyHeaders => HeadPart::FieldCount,
    }
}

/// The bytes that can belong to a head.
fn front_of(bytes: &[u8]) -> &[u8]
    ensures { result.now ≡ front bytes.now }
{
    &bytes[..bytes.len().min(MAX_HEAD)]
}

fn reply_head(bytes: &[u8]) -> Head
    ensures { HeadIs HttpKind.Reply bytes.now result }
{
    let text = front_of(bytes);
    let mut headers = [EMPTY_HEADER_SPAN; MAX_FIELDS];
    match parse_response(text, &mut headers) {
        Ok(Status::Complete(head)) => {
            if head.code != GOOD_STATUS {
                return Head::Refused(FrameFault::BadStatus(head.code));
            }
            framed(HttpKind::Reply, head.len, text, &headers[..head.headers])
        }
        Ok(Status::Partial) => Head::Unfinished,
        Err(error) => Head::Bad(part_of(error)),
    }
}

fn request_head(bytes: &[u8]) -> Head
    ensures { HeadIs HttpKind.Request bytes.now result }
{
    let text = front_of(bytes);
    let mut headers = [EMPTY_HEADER_SPAN; MAX_FIELDS];
    match parse_request(text, &mut headers) {
        Ok(Status::Complete(head)) => {
            if head.method.of(text) != POST {
                return Head::Bad(HeadPart::Method);
            }
            framed(HttpKind::Request, head.len, text, &headers[..head.headers])
        }
        Ok(Status::Partial) => Head::Unfinished,
        Err(error) => Head::Bad(part_of(error)),
    }
}

/// Parses a head from the bytes so far.
fn head_at(kind: HttpKind, bytes: &[u8]) -> Head
    ensures { HeadIs kind bytes.now result }
{
    match kind {
        HttpKind::Reply => reply_head(bytes),
        HttpKind::Request => request_head(bytes),
    }
}

/// Parses a head from the bytes so far. `before` is the result for fewer bytes; if it is not `Unfinished`, this returns
/// `before` and does not parse the head again.
pub(crate) fn head_after(kind: HttpKind, before: Head, bytes: &[u8]) -> Head
    requires { IsKnown kind bytes.now before }
    ensures head { HeadIs kind bytes.now result }
    ensures starts { StartsWithin (length bytes.now) result }
{
    match before {
        Head::Unfinished => head_at(kind, bytes),
        known => known,
    }
}
