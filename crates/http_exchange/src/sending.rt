//! Writes a message, one write after another.
ghost use Rattle.std.specs.Prelude.{◌≡◌, ◌<◌, ◌≤◌, length, take, IfOk, OnOk, OnErr, IfErr, []};
ghost use Rattle.std.specs.Io.KnownBytes.{Appends};
ghost use Rattle.game_core.specs.Counting.{one_more};
ghost use Rattle.http_exchange.specs.Exchange.{BreaksOff, WritesText};
ghost use Rattle.http_exchange.specs.WireFaults.{HasFailed};

use crate::wire_fault::WireFault;
use game_core::{Counted, MAX_STREAM_CALLS};
use shared_text::SharedText;
use std::io::{ErrorKind, Write};

/// Calls `write` once. Returns the number of bytes that the stream took, or 0 if the write was interrupted.
fn write_once<S: Write>(stream: &mut Counted<S>, rest: &[u8]) -> Result<usize, WireFault>
    requires { 0 < length rest.now }
    ensures bound { IfOk result (λ taken. taken ≤ length rest.now) }
    ensures bytes { IfOk result (λ taken. Appends (S.contents stream.old.stream) (S.contents stream.new.stream) (take taken rest.now)) }
    ensures called { stream.new.calls ≡ one_more stream.old.calls }
    ensures fault { IfErr result (λ fault. fault ≡ WireFault.WriteFault) }
    ensures nothing { OnErr result (Appends (S.contents stream.old.stream) (S.contents stream.new.stream) []) }
    ensures failed { OnErr result (HasFailed stream.old.faults stream.new.faults) }
    ensures kept { stream.old.faults ≤ stream.new.faults }
{
    match stream.write(rest) {
        Ok(0) => Err(WireFault::WriteFault),
        Ok(count) => Ok(count),
        Err(error) => {
            if error.kind() == ErrorKind::Interrupted {
                return Ok(0);
            }
            Err(WireFault::WriteFault)
        }
    }
}

/// Writes all bytes of a text. Repeats interrupted writes.
pub(crate) fn send<S: Write>(
    stream: &mut Counted<S>,
    text: &SharedText<'_>,
) -> Result<(), WireFault>
    ensures whole { OnOk result (WritesText S.contents stream.old stream.new text.now) }
    ensures breaks { IfErr result (λ fault. BreaksOff S.contents stream.old stream.new text.now fault) }
{
    let length = text.len();
    let mut taken = 0;
    for call in 0..MAX_STREAM_CALLS {
        if taken == length {
            return Ok(());
        }
        taken += write_once(stream, text.rest(taken))?;
    }
    if taken == length {
        return Ok(());
    }
    Err(WireFault::TooManyReads)
}
