//! The result for the bytes of a message so far.
ghost use Rattle.std.specs.Prelude.{◌≡◌, ◌≤◌};
ghost use Rattle.http_exchange.specs.Internal.Heads.{StartsWithin};
ghost use Rattle.http_exchange.specs.Looks.{look_from, look_past};
ghost use Rattle.http_exchange.specs.Internal.Heads.{BodyWithin};

use crate::head::{Frame, Head, MAX_HEAD, MAX_REPLY_BODY};
use crate::wire_fault::FrameFault;

/// The result for the bytes so far.
#[derive(Clone, Copy)]
pub enum Look {
    More,
    /// The body is complete. It begins and ends at these places.
    Body(usize, usize),
    Refused(FrameFault),
}

fn look_from(frame: Frame, have: usize, ended: bool) -> Look
    requires { frame.start ≤ have }
    ensures value { result ≡ look_from frame.start frame.length have ended }
    ensures within { BodyWithin have result }
{
    let come = have - frame.start;
    match frame.length {
        Some(length) => {
            if length <= come {
                Look::Body(frame.start, frame.start + length)
            } else if ended {
                Look::Refused(FrameFault::CutShort)
            } else {
                Look::More
            }
        }
        None => {
            if MAX_REPLY_BODY < come {
                Look::Refused(FrameFault::TooLong)
            } else if ended {
                Look::Body(frame.start, have)
            } else {
                Look::More
            }
        }
    }
}

/// The result for `have` bytes with this head. `ended` says whether the stream has ended.
pub(crate) fn look_past(head: Head, have: usize, ended: bool) -> Look
    requires { StartsWithin have head }
    ensures value { result ≡ look_past head have ended }
    ensures within { BodyWithin have result }
{
    match head {
        Head::Unfinished => {
            if MAX_HEAD <= have {
                Look::Refused(FrameFault::TooLong)
            } else if ended {
                Look::Refused(FrameFault::CutShort)
            } else {
                Look::More
            }
        }
        Head::Whole(frame) => look_from(frame, have, ended),
        Head::Bad(_) => Look::Refused(FrameFault::BadHead),
        Head::Refused(refusal) => Look::Refused(refusal),
    }
}
