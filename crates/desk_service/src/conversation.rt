//! A client's conversation with the desk over one connection.
ghost use Rattle.std.specs.Prelude.{◌≡◌, ◌<◌, ◌≤◌, ◌++◌, [], ℕ, List, length, take, IfErr, IfOk, MatchResult};
ghost use Rattle.std.specs.Io.KnownBytes.{Appends, Consumes, IsAtEnd};
ghost use Rattle.call_history.specs.History.{EndsLegalHistory};
ghost use Rattle.call_history.specs.Lines.{LockLineValue};
ghost use Rattle.whole_streams.specs.Lines.{HasNoLineFeed};
ghost use Rattle.desk_service.specs.Rows.{Answered, IsLeftAs, IsPartialRow};
ghost use Rattle.desk_service.specs.Conversations.{EndsReading, Says, WritesUpTo};

use crate::ending::Ending;
use crate::rows::{Serving, answer_chunk};
use call_history::{LockLine, Object};
use desk_calls::{Call, Reply};
use game_core::Counted;
use std::io::{Read, Write};
use std::sync::Wait;
use std::sync::ledger::Ledger;
use whole_streams::write_all;

/// The size of a read, in bytes.
const READ_SIZE: usize = 16_384;

/// Reads once. Returns the number of bytes.
fn read_chunk<I: Read>(reader: &mut Counted<I>, chunk: &mut [u8]) -> Result<usize, Ending>
    requires { 0 < length chunk.old }
    ensures read { IfOk result (λ count. (count ≤ length chunk.new) × Consumes (I.remaining reader.old.stream) (I.remaining reader.new.stream) (take count chunk.new)) }
    ensures stops { IfErr result (λ ending. EndsReading ending × Consumes (I.remaining reader.old.stream) (I.remaining reader.new.stream) []
        × (ending ≡ Ending.Left → IsAtEnd (I.remaining reader.new.stream))) }
{
    match reader.read(chunk) {
        Ok(0) => Err(Ending::Left),
        Ok(count) => Ok(count),
        Err(_) => Err(Ending::Broken),
    }
}

/// Reads once, and writes the answers to the rows that are then complete. `row` is the beginning of the next row, which
/// is not complete.
fn answer_read<O, L: Ledger, R: Wait, I: Read, W: Write>(
    serving: &Serving<'_, O, L, R>,
    line: &mut LockLine<L>,
    row: &mut Vec<u8>,
    reader: &mut Counted<I>,
    writer: &mut Counted<W>,
) -> Result<(), Ending>
where
    O: Object<Call = Call, Reply = Reply>,
    requires { IsPartialRow row.old.items }
    ensures { (given text left : List ℕ) × (last : LockLineValue)
        × Consumes (I.remaining reader.old.stream) (I.remaining reader.new.stream) given
        × Answered (EndsLegalHistory O.reply O.after O.opening) line.old last (row.old.items ++ given) text left
        × MatchResult result
        (λ _. (row.new.items ≡ left) × IsPartialRow left × (last ≡ line.new) × Appends (W.contents writer.old.stream) (W.contents writer.new.stream) text)
        (λ ending. IsLeftAs ending last line.new
        × (ending ≡ Ending.Left → HasNoLineFeed left × IsAtEnd (I.remaining reader.new.stream))
        × WritesUpTo ending (W.contents writer.old.stream) (W.contents writer.new.stream) text) }
{
    let mut chunk = [0u8; READ_SIZE];
    let count = match read_chunk(reader, &mut chunk) {
        Ok(count) => count,
        Err(ending) => return Err(ending),
    };
    let mut answers = Vec::new(serving.alloc);
    let answered = answer_chunk(serving, line, row, &chunk[..count], &mut answers);
    match write_all(writer, &answers) {
        Ok(()) => answered,
        Err(_) => Err(Ending::Broken),
    }
}

/// Answers the rows of a client in order, until the conversation ends. After each read, writes the answers before it
/// reads again.
fn answer_all<O, L: Ledger, R: Wait, I: Read, W: Write>(
    serving: &Serving<'_, O, L, R>,
    line: &mut LockLine<L>,
    reader: &mut Counted<I>,
    writer: &mut Counted<W>,
) -> Ending
where
    O: Object<Call = Call, Reply = Reply>,
    ensures { (given text left : List ℕ) × (last : LockLineValue)
        × Consumes (I.remaining reader.old.stream) (I.remaining reader.new.stream) given
        × Answered (EndsLegalHistory O.reply O.after O.opening) line.old last given text left
        × IsLeftAs result last line.new
        × (result ≡ Ending.Left → HasNoLineFeed left × IsAtEnd (I.remaining reader.new.stream))
        × WritesUpTo result (W.contents writer.old.stream) (W.contents writer.new.stream) text }
{
    let mut row = Vec::new(serving.alloc);
    for turn in serving.rt.forever() {
        match answer_read(serving, line, &mut row, reader, writer) {
            Ok(()) => {}
            Err(ending) => return ending,
        }
    }
    unreachable!()
}

/// Answers the rows of a client in order, until the conversation ends, and then writes the last row, if there is one. A
/// row is complete when its line feed has arrived; the service makes no call for an incomplete row.
pub fn converse<O, L: Ledger, R: Wait, I: Read, W: Write>(
    serving: &Serving<'_, O, L, R>,
    line: &mut LockLine<L>,
    reader: &mut Counted<I>,
    writer: &mut Counted<W>,
) -> Ending
where
    O: Object<Call = Call, Reply = Reply>,
    ensures number { line.new.number ≡ line.old.number }
    ensures answered { (given text left : List ℕ) × (last : LockLineValue)
        × Consumes (I.remaining reader.old.stream) (I.remaining reader.new.stream) given
        × Answered (EndsLegalHistory O.reply O.after O.opening) line.old last given text left
        × IsLeftAs result last line.new
        × (result ≡ Ending.Left → HasNoLineFeed left × IsAtEnd (I.remaining reader.new.stream))
        × Says result (W.contents writer.old.stream) (W.contents writer.new.stream) text }
{
    let ending = answer_all(serving, line, reader, writer);
    let _ = write_all(writer, ending.last_row());
    ending
}
