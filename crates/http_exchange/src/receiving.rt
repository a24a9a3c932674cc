//! Reads a message, one read after another.
ghost use Rattle.std.specs.Prelude.{◌≡◌, ◌<◌, ◌≤◌, ◌⊎◌, false, length, slice_range, IfOk, IfErr};
ghost use Rattle.http_exchange.specs.Exchange.{TakesBody, TakesNone, TellsRefusal};
ghost use Rattle.http_exchange.specs.Internal.Reads.{ReadsOnce, ReadOnceFails};
ghost use Rattle.http_exchange.specs.WireFaults.{HasFailed, IsRefusal};

use crate::head::{Head, HttpKind, head_after};
use crate::look::{Look, look_past};
use crate::received::{Received, received_of};
use crate::wire_fault::WireFault;
use game_core::{Counted, MAX_STREAM_CALLS, Text};
use std::alloc::{AllocError, Global};
use std::io::{ErrorKind, Read};

/// The largest number of bytes of one read.
const READ_SIZE: usize = 4_096;

/// Calls `read` once. Returns whether the stream has ended.
fn read_once<S: Read>(
    stream: &mut Counted<S>,
    bytes: &mut Vec<u8>,
    chunk: &mut [u8],
) -> Result<bool, WireFault>
    requires { 0 < length chunk.old }
    ensures read { IfOk result (λ ended. ReadsOnce S.remaining stream.old stream.new bytes.old.items bytes.new.items ended) }
    ensures fails { IfErr result (λ fault. ReadOnceFails S.remaining stream.old stream.new fault) }
    ensures goes_on { IfOk result (λ ended. ended ≡ false → (length bytes.old.items < length bytes.new.items) ⊎ HasFailed stream.old.faults stream.new.faults) }
{
    match stream.read(chunk) {
        Ok(0) => Ok(true),
        Ok(count) => {
            bytes.extend_from_slice(&chunk[..count])?;
            Ok(false)
        }
        Err(error) => {
            let kind = error.kind();
            if kind == ErrorKind::Interrupted {
                return Ok(false);
            }
            Err(WireFault::ReadFault(kind))
        }
    }
}

fn body_of(alloc: Global, bytes: &[u8], start: usize, end: usize) -> Result<Text, AllocError>
    requires ordered { start ≤ end }
    requires within { end ≤ length bytes.now }
    ensures { IfOk result (λ body. body ≡ slice_range bytes.now start end) }
{
    Text::from_slice(alloc, &bytes[start..end])
}

/// Reads a message and returns its body. May read bytes after the body. If there is no body to return, `received` says
/// how much of the message came.
pub(crate) fn receive<S: Read>(
    alloc: Global,
    stream: &mut Counted<S>,
    kind: HttpKind,
    received: &mut Received,
) -> Result<Text, WireFault>
    ensures body { IfOk result (λ body. TakesBody kind S.remaining stream.old stream.new body) }
    ensures fails { IfErr result (λ fault. TakesNone kind S.remaining stream.old stream.new fault) }
    ensures received { IfErr result (λ fault. IsRefusal fault → TellsRefusal kind S.remaining stream.old stream.new fault received.new) }
{
    let mut bytes = Vec::new(alloc);
    let mut chunk = [0; READ_SIZE];
    let mut head = Head::Unfinished;
    *received = Received::Nothing;
    for call in 0..MAX_STREAM_CALLS {
        let ended = read_once(stream, &mut bytes, &mut chunk)?;
        head = head_after(kind, head, &bytes);
        let have = bytes.len();
        *received = received_of(head, have);
        match look_past(head, have, ended) {
            Look::More => {}
            Look::Body(start, end) => return Ok(body_of(alloc, &bytes, start, end)?),
            Look::Refused(refusal) => return Err(WireFault::from(refusal)),
        }
    }
    Err(WireFault::TooManyReads)
}
