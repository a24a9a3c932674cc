//! Why a message was not sent or not accepted.
ghost use Rattle.std.specs.Prelude.{◌≡◌};
ghost use Rattle.http_exchange.specs.WireFaults.{fault_of};
ghost use Rattle.http_exchange.specs.declared.wire_fault.WireFault.TheVariants.{Memory};

use std::alloc::AllocError;
use std::error::Error;
use std::fmt;
use std::io::ErrorKind;

/// Why an exchange returned no body, or why a reply was not written. The stream is not usable afterwards: the bytes that
/// were read are lost, and the bytes that were written remain written.
#[derive(Clone, Copy, PartialEq, Eq)]
pub enum WireFault {
    /// A write failed for a reason other than an interruption, or accepted no bytes.
    WriteFault,
    /// A read failed for a reason other than an interruption.
    ReadFault(ErrorKind),
    /// No further bytes can complete a head, the head has more than 64 fields, or a request's method is not `POST`.
    BadHead,
    /// A reply's status is not 200.
    BadStatus,
    /// The fields do not give one length: there is a `Transfer-Encoding`, a length is not a number, two lengths are
    /// different, or a request has no length.
    BadLength,
    /// The head has more than 16,384 bytes. Or, according to the head or the bytes that arrived, the body has more than
    /// 65,536 bytes in a reply or 2,097,152 in a request.
    TooLong,
    /// The stream ended inside the head, or before the body was complete.
    CutShort,
    /// 200,000 reads did not give enough bytes, or 200,000 writes did not write all bytes.
    TooManyReads,
    /// Out of memory.
    Memory,
}

impl fmt::Display for WireFault {
    fn fmt<W: fmt::Write>(&self, f: &mut fmt::Formatter<W>) -> fmt::Result {
        let words = match *self {
            WireFault::WriteFault => "a write failed",
            WireFault::ReadFault(kind) => return write!(f, "a read failed: {kind:?}"),
            WireFault::BadHead => "the head is not valid HTTP",
            WireFault::BadStatus => "the status is not 200",
            WireFault::BadLength => "the body length is invalid",
            WireFault::TooLong => "the head or the body is too long",
            WireFault::CutShort => "the stream ended too early",
            WireFault::TooManyReads => "too many reads or writes",
            WireFault::Memory => "out of memory",
        };
        f.write_str(words)
    }
}

/// The same text as `Display`.
impl fmt::Debug for WireFault {
    fn fmt<W: fmt::Write>(&self, f: &mut fmt::Formatter<W>) -> fmt::Result {
        fmt::Display::fmt(self, f)
    }
}

impl Error for WireFault {}

impl From<AllocError> for WireFault {
    ghost from_gives = { λ _ fault. fault ≡ Memory };

    fn from(_: AllocError) -> WireFault {
        WireFault::Memory
    }
}

/// Why the bytes of a message are refused.
#[derive(Clone, Copy)]
pub enum FrameFault {
    BadHead,
    /// A reply has this status, which is not 200.
    BadStatus(u16),
    TransferEncoding,
    /// A length is not a number.
    NoNumber,
    /// Two lengths are different.
    TwoLengths,
    /// A request has no length.
    NoLength,
    TooLong,
    CutShort,
}

impl From<FrameFault> for WireFault {
    ghost from_gives = { λ refusal fault. fault ≡ fault_of refusal };

    fn from(refusal: FrameFault) -> WireFault {
        match refusal {
            FrameFault::BadHead => WireFault::BadHead,
            FrameFault::BadStatus(_) => WireFault::BadStatus,
            FrameFault::TransferEncoding
            | FrameFault::NoNumber
            | FrameFault::TwoLengths
            | FrameFault::NoLength => WireFault::BadLength,
            FrameFault::TooLong => WireFault::TooLong,
            FrameFault::CutShort => WireFault::CutShort,
        }
    }
}
