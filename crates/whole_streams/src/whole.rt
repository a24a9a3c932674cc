//! Reads a whole input, and writes a whole output.
ghost use Rattle.std.specs.Prelude.{◌≡◌, ◌≤◌, ◌<◌, ℕ, List, length, IfOk, OnOk, OnErr, IfErr};
ghost use Rattle.std.specs.Io.KnownBytes.{Consumes, Appends, IsAtEnd};
ghost use Rattle.game_core.specs.Counting.{one_more};
ghost use Rattle.whole_streams.specs.Streams.{AppendsPart, InputFails};

use game_core::{Counted, MAX_STREAM_CALLS};
use std::alloc::Global;
use std::io::{Read, Write};

/// Why an input was not read: the first failure.
#[derive(Clone, Copy, PartialEq, Eq)]
pub enum InputFault {
    /// A read failed or was interrupted, or 200,000 reads did not reach the end of the input.
    ReadFault,
    /// The input is longer than the limit.
    TooLong,
    /// Out of memory.
    Memory,
}

/// A write failed, or took no bytes.
#[derive(Clone, Copy, PartialEq, Eq)]
pub struct WriteFault;

/// The size of a read, in bytes.
pub(crate) const READ_SIZE: usize = 16_384;

/// Reads the stream to its end. The stream may have at most `limit` bytes.
pub fn read_to_end<R: Read>(
    alloc: Global,
    reader: &mut Counted<R>,
    limit: usize,
) -> Result<Vec<u8>, InputFault>
    ensures whole { IfOk result (λ input. Consumes (R.remaining reader.old.stream) (R.remaining reader.new.stream) input.items
        × IsAtEnd (R.remaining reader.new.stream)) }
    ensures within { IfOk result (λ input. length input.items ≤ limit) }
    ensures no_fault { OnOk result (reader.new.faults ≡ reader.old.faults) }
    ensures fails { IfErr result (λ fault. (given : List ℕ)
        × Consumes (R.remaining reader.old.stream) (R.remaining reader.new.stream) given
        × InputFails limit fault given reader.old reader.new) }
{
    let mut input = Vec::new(alloc);
    let mut chunk = [0u8; READ_SIZE];
    for call in 0..MAX_STREAM_CALLS {
        let count = match reader.read(&mut chunk) {
            Ok(count) => count,
            Err(_) => return Err(InputFault::ReadFault),
        };
        if count == 0 {
            return Ok(input);
        }
        if count > limit - input.len() {
            return Err(InputFault::TooLong);
        }
        if input.extend_from_slice(&chunk[..count]).is_err() {
            return Err(InputFault::Memory);
        }
    }
    Err(InputFault::ReadFault)
}

/// Writes all bytes. On an error, a prefix of them was written.
pub fn write_all<W: Write>(writer: &mut Counted<W>, output: &[u8]) -> Result<(), WriteFault>
    ensures whole { OnOk result (Appends (W.contents writer.old.stream) (W.contents writer.new.stream) output.now) }
    ensures no_fault { OnOk result (writer.new.faults ≡ writer.old.faults) }
    ensures prefix { OnErr result (AppendsPart (W.contents writer.old.stream) (W.contents writer.new.stream) output.now) }
    ensures failed { OnErr result (writer.new.faults ≡ one_more writer.old.faults) }
{
    let mut taken = 0;
    while taken < output.len() {
        match writer.write(&output[taken..]) {
            Ok(0) => return Err(WriteFault),
            Ok(count) => taken += count,
            Err(_) => return Err(WriteFault),
        }
    }
    Ok(())
}
