//! How much of a reply came if it had no usable body. Only error messages use this.
ghost use Rattle.std.specs.Prelude.{◌≡◌};
ghost use Rattle.http_exchange.specs.Internal.Heads.{StartsWithin};
ghost use Rattle.http_exchange.specs.Receipts.{receipt};

use crate::head::{Head, HeadPart, MAX_REPLY_BODY};
use crate::wire_fault::FrameFault;
use std::fmt;

/// How far an exchange got, if it brought no body.
#[derive(Clone, Copy, PartialEq, Eq)]
pub enum Received {
    /// There was no connection for the exchange.
    Unconnected,
    /// The request was not written completely.
    Unsent,
    Nothing,
    /// This many bytes came, without the end of the head.
    Head(usize),
    /// A part of the body came: its number of bytes, and the length of the whole body.
    Body(usize, usize),
    /// This many bytes came, of a body that continues to the end of the stream.
    OpenBody(usize),
    TransferEncoding,
    /// A `Content-Length` is not a number.
    NoNumber,
    /// Two lengths are different.
    TwoLengths,
    /// A `Content-Length` exceeds the limit of a body.
    LongLength,
    /// A complete head came, with this status, which is not 200. This many bytes came in total.
    Status(u16, usize),
    /// This many bytes came, and this part of their head is not valid HTTP.
    BadHead(HeadPart, usize),
    /// This many bytes came, and the head was refused for another reason.
    Refused(usize),
}

impl Received {
    /// The number of bytes, if the text begins with one.
    fn count(self) -> Option<usize> {
        match self {
            Received::Head(count)
            | Received::Body(count, _)
            | Received::OpenBody(count)
            | Received::Status(_, count)
            | Received::BadHead(_, count)
            | Received::Refused(count) => Some(count),
            _ => None,
        }
    }

    /// The text after that number, up to a length or a limit.
    fn words(self) -> &'static str {
        match self {
            Received::Unconnected => "no connection was made",
            Received::Unsent => "the request was not fully written",
            Received::Nothing => "nothing received",
            Received::Head(_) => "the head's bytes received",
            Received::Body(..) => "the body's ",
            Received::OpenBody(_) => "the body's bytes received, and no Content-Length",
            Received::TransferEncoding => "the Transfer-Encoding is not supported",
            Received::NoNumber => "the Content-Length is not a number",
            Received::TwoLengths => "two Content-Length fields differ",
            Received::LongLength => "the Content-Length is above ",
            Received::Status(..) | Received::BadHead(..) | Received::Refused(_) => {
                "the reply's bytes received"
            }
        }
    }
}

impl fmt::Display for Received {
    fn fmt<W: fmt::Write>(&self, f: &mut fmt::Formatter<W>) -> fmt::Result {
        if let Received::BadHead(part, _) = *self {
            write!(f, "{}: ", part.words())?;
        }
        if let Some(count) = self.count() {
            write!(f, "{count} of ")?;
        }
        f.write_str(self.words())?;
        match *self {
            Received::Body(_, length) => write!(f, "{length} bytes received"),
            Received::LongLength => write!(f, "{MAX_REPLY_BODY}"),
            _ => Ok(()),
        }
    }
}

/// The same text as `Display`.
impl fmt::Debug for Received {
    fn fmt<W: fmt::Write>(&self, f: &mut fmt::Formatter<W>) -> fmt::Result {
        fmt::Display::fmt(self, f)
    }
}

/// How much of a reply came, given the result for its head and the number of its bytes.
pub(crate) fn received_of(head: Head, have: usize) -> Received
    requires { StartsWithin have head }
    ensures { result ≡ receipt head have }
{
    match head {
        Head::Unfinished => {
            if have == 0 {
                Received::Nothing
            } else {
                Received::Head(have)
            }
        }
        Head::Whole(frame) => match frame.length {
            Some(length) => Received::Body(length.min(have - frame.start), length),
            None => Received::OpenBody(have - frame.start),
        },
        Head::Bad(part) => Received::BadHead(part, have),
        Head::Refused(refusal) => match refusal {
            FrameFault::BadStatus(status) => Received::Status(status, have),
            FrameFault::TransferEncoding => Received::TransferEncoding,
            FrameFault::NoNumber => Received::NoNumber,
            FrameFault::TwoLengths => Received::TwoLengths,
            FrameFault::TooLong => Received::LongLength,
            _ => Received::Refused(have),
        },
    }
}
