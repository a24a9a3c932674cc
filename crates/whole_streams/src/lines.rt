//! Reads an input line by line, with only one line in memory at a time.
ghost use Rattle.std.specs.Prelude.{◌≡◌, ◌<◌, ◌≤◌, ◌+◌, ◌++◌, [], ℕ, List, length, take, slice_index, IfOk, OnOk, IfErr, MatchOption, MatchBool};
ghost use Rattle.std.specs.Io.KnownBytes.{Consumes, IsAtEnd};
ghost use Rattle.std.specs.Str.Lines.{strip_carriage_return};
ghost use Rattle.game_core.specs.Bytes.{line_feed};
ghost use Rattle.game_core.specs.Counting.{CallsMade, one_more};
ghost use Rattle.whole_streams.specs.Streams.{InputFails};
ghost use Rattle.whole_streams.specs.declared.whole.InputFault.TheVariants.{ReadFault};
ghost use Rattle.whole_streams.specs.Lines.{HasNoLineFeed, IsEnd, IsNextLine, IsPiece, StopsLine, line_bytes};

use crate::whole::{InputFault, READ_SIZE};
use game_core::{Counted, MAX_STREAM_CALLS};
use std::alloc::Global;
use std::io::Read;
use std::marker::Model;

/// The next part of an input that is read line by line.
#[derive(Drop)]
pub enum NextLine {
    /// A line that ended with a line feed. The line feed, and one carriage return before it, are removed.
    Ended(Vec<u8>),
    /// The last line, unchanged, if it has no line feed. Nothing follows it in the input.
    Last(Vec<u8>),
    /// The input has ended.
    Nothing,
}

/// The bytes of an input that were read but are not yet part of a line. In contracts, the buffer is these bytes. The
/// rest of the input consists of these bytes and the bytes left in the stream.
#[derive(Drop)]
pub struct LineBuffer {
    chunk: [u8; READ_SIZE],
    start: usize,
    end: usize,
}

impl Model for LineBuffer {
    ghost use Rattle.std.specs.Prelude.{ℕ, ◌≤◌, List, length, slice_range};

    ghost Value = { List ℕ };

    ghost view = { λ b. slice_range b.chunk b.start b.end };

    ghost invariant = { λ b. (b.start ≤ b.end) × (b.end ≤ length b.chunk) };
}

fn line_end(bytes: &[u8]) -> Option<usize>
    ensures { MatchOption result (HasNoLineFeed bytes.now)
        (λ end. (end < length bytes.now) × HasNoLineFeed (take end bytes.now) × (slice_index bytes.now end ≡ line_feed)) }
{
    bytes.iter().position(|b| *b == b'\n')
}

fn without_return(mut line: Vec<u8>) -> Vec<u8>
    ensures { result.items ≡ strip_carriage_return line.items }
{
    if line.last() == Some(&b'\r') {
        line.pop();
    }
    line
}

/// The part of the input after the last line feed: a last line, or nothing.
fn at_end(line: Vec<u8>) -> NextLine
    ensures { IsEnd line.items result }
{
    if line.is_empty() {
        NextLine::Nothing
    } else {
        NextLine::Last(line)
    }
}

fn push_within(line: &mut Vec<u8>, piece: &[u8], limit: usize) -> Result<(), InputFault>
    requires { length line.old.items ≤ limit }
    ensures grown { OnOk result (line.new.items ≡ line.old.items ++ piece.now) }
    ensures within { OnOk result (length line.new.items ≤ limit) }
    ensures fails { IfErr result (λ fault. StopsLine limit fault (length line.old.items + length piece.now)) }
{
    if piece.len() > limit - line.len() {
        return Err(InputFault::TooLong);
    }
    match line.extend_from_slice(piece) {
        Ok(()) => Ok(()),
        Err(_) => Err(InputFault::Memory),
    }
}

impl LineBuffer {
    /// A buffer for an input that has not been read yet.
    pub fn new() -> LineBuffer
        ensures { result ≡ [] }
    {
        LineBuffer {
            chunk: [0; READ_SIZE],
            start: 0,
            end: 0,
        }
    }

    /// Replaces the buffered bytes with those of one read. Returns false at the end of the input.
    fn refill<R: Read>(&mut self, reader: &mut Counted<R>) -> Result<bool, InputFault>
        ensures given { OnOk result (Consumes (R.remaining reader.old.stream) (R.remaining reader.new.stream) self.new) }
        ensures no_fault { OnOk result (reader.new.faults ≡ reader.old.faults) }
        ensures called { reader.new.calls ≡ one_more reader.old.calls }
        ensures fails { IfErr result (λ fault. (fault ≡ ReadFault) × (self.new ≡ []) × (reader.new.faults ≡ one_more reader.old.faults)
            × Consumes (R.remaining reader.old.stream) (R.remaining reader.new.stream) []) }
        ensures more { IfOk result (λ more. MatchBool more (0 < length self.new) ((self.new ≡ []) × IsAtEnd (R.remaining reader.new.stream))) }
    {
        self.start = 0;
        self.end = 0;
        match reader.read(&mut self.chunk) {
            Ok(count) => {
                self.end = count;
                Ok(count > 0)
            }
            Err(_) => Err(InputFault::ReadFault),
        }
    }

    /// Moves the buffered bytes up to a line feed to the end of `line`. Returns whether the line is complete. On an
    /// error these bytes are lost.
    fn take_piece(&mut self, line: &mut Vec<u8>, limit: usize) -> Result<bool, InputFault>
        requires { length line.old.items ≤ limit }
        ensures piece { IfOk result (λ ended. (piece : List ℕ) × (line.new.items ≡ line.old.items ++ piece)
            × HasNoLineFeed piece × IsPiece self.old ended piece self.new) }
        ensures within { OnOk result (length line.new.items ≤ limit) }
        ensures fails { IfErr result (λ fault. (piece : List ℕ) × (self.old ≡ piece ++ self.new) × HasNoLineFeed piece
            × StopsLine limit fault (length line.old.items + length piece)) }
    {
        let begin = self.start;
        match line_end(&self.chunk[begin..self.end]) {
            Some(count) => {
                self.start = begin + count;
                match push_within(line, &self.chunk[begin..begin + count], limit) {
                    Ok(()) => {
                        self.start += 1;
                        Ok(true)
                    }
                    Err(fault) => Err(fault),
                }
            }
            None => {
                self.start = self.end;
                match push_within(line, &self.chunk[begin..self.end], limit) {
                    Ok(()) => Ok(false),
                    Err(fault) => Err(fault),
                }
            }
        }
    }

    /// The next line of the input. It may have at most `limit` bytes before its line feed, and take at most 200,000
    /// reads. On an error, the part of the line that was already read is lost.
    pub fn next_line<R: Read>(
        &mut self,
        alloc: Global,
        reader: &mut Counted<R>,
        limit: usize,
    ) -> Result<NextLine, InputFault>
        ensures next { IfOk result (λ line. (given : List ℕ)
            × Consumes (R.remaining reader.old.stream) (R.remaining reader.new.stream) given
            × IsNextLine (R.remaining reader.new.stream) (self.old ++ given) line self.new) }
        ensures within { IfOk result (λ line. length (line_bytes line) ≤ limit) }
        ensures no_fault { OnOk result (reader.new.faults ≡ reader.old.faults) }
        ensures fails { IfErr result (λ fault. (given : List ℕ) × (lost : List ℕ)
            × Consumes (R.remaining reader.old.stream) (R.remaining reader.new.stream) given
            × (self.old ++ given ≡ lost ++ self.new)
            × HasNoLineFeed lost
            × InputFails limit fault lost reader.old reader.new) }
        ensures called { CallsMade 0 reader.old.calls reader.new.calls }
    {
        let mut line = Vec::new(alloc);
        match self.take_piece(&mut line, limit) {
            Ok(true) => return Ok(NextLine::Ended(without_return(line))),
            Ok(false) => {}
            Err(fault) => return Err(fault),
        }
        for call in 0..MAX_STREAM_CALLS {
            match self.refill(reader) {
                Ok(true) => {}
                Ok(false) => return Ok(at_end(line)),
                Err(fault) => return Err(fault),
            }
            match self.take_piece(&mut line, limit) {
                Ok(true) => return Ok(NextLine::Ended(without_return(line))),
                Ok(false) => {}
                Err(fault) => return Err(fault),
            }
        }
        Err(InputFault::ReadFault)
    }
}
