//! Answers the rows that a client sends, over a line of the desk.
ghost use Rattle.std.specs.Prelude.{◌≡◌, ◌≤◌, ◌+◌, ◌++◌, ◌∷◌, [], ℕ, List, length, IfErr, IfNone, IfSome, OnErr, OnOk, MatchResult};
ghost use Rattle.game_core.specs.Bytes.{line_feed};
ghost use Rattle.call_history.specs.History.{EndsLegalHistory};
ghost use Rattle.call_history.specs.Lines.{LockLineValue};
ghost use Rattle.desk_text.specs.ScriptLines.{reply_text};
ghost use Rattle.whole_streams.specs.Lines.{HasNoLineFeed};
ghost use Rattle.desk_service.specs.Rows.{Answered, AnswersRow, IsLeftAs, IsPartialRow, IsStopped, max_row};

use crate::ending::Ending;
use call_history::{CallFault, LockDesk, LockLine, Object};
use desk_calls::{Call, Reply};
use desk_text::{call_of, push_reply};
use game_core::lines::without_return;
use std::alloc::Global;
use std::sync::Wait;
use std::sync::ledger::Ledger;
use whole_streams::laws::lines_are_taken;

/// The largest number of bytes of a row, as in a script.
const MAX_ROW: usize = 1_048_576;

/// The desk of a service, with everything that is needed to make calls on it.
#[derive(Drop)]
pub struct Serving<'a, O: Object, L: Ledger, R> {
    pub rt: &'a R,
    pub alloc: Global,
    pub desk: &'a LockDesk<O, L>,
}

/// Appends a reply and a line feed, with `text` as a buffer. On an error, appends nothing.
fn push_answer(out: &mut Vec<u8>, text: &mut Vec<u8>, reply: &Reply) -> Result<(), CallFault>
    ensures answer { OnOk result (out.new.items ≡ out.old.items ++ (reply_text reply.now ++ line_feed ∷ [])) }
    ensures same { OnErr result (out.new.items ≡ out.old.items) }
    ensures memory { IfErr result (λ fault. fault ≡ CallFault.Memory) }
{
    text.clear();
    push_reply(text, reply)?;
    text.extend_from_slice(b"\n")?;
    out.extend_from_slice(text)?;
    Ok(())
}

/// Appends the answer to a row, with `text` as a buffer. On an error, appends nothing. If memory ran out, the desk may
/// have made the call.
fn answer_row<O: Object<Call = Call, Reply = Reply>, L: Ledger, R: Wait>(
    serving: &Serving<'_, O, L, R>,
    line: &mut LockLine<L>,
    row: &[u8],
    text: &mut Vec<u8>,
    out: &mut Vec<u8>,
) -> Result<(), CallFault>
    ensures number { line.new.number ≡ line.old.number }
    ensures answer { OnOk result (AnswersRow (EndsLegalHistory O.reply O.after O.opening) line.old line.new row.now out.old.items out.new.items) }
    ensures same { OnErr result (out.new.items ≡ out.old.items) }
    ensures made { OnErr result ((line.old.made ≤ line.new.made) × (line.new.made ≤ line.old.made + 1)) }
    ensures full { IfErr result (λ fault. fault ≡ CallFault.Full → line.new.made ≡ line.old.made) }
{
    let Ok(call) = call_of(serving.alloc, row)? else {
        out.extend_from_slice(b"badline\n")?;
        return Ok(());
    };
    let reply = serving.desk.ask(serving.rt, line, call)?;
    push_answer(out, text, &reply)
}

/// The bytes before and after the first line feed.
fn first_row(text: &[u8]) -> Option<(&[u8], &[u8])>
    ensures none { IfNone result (HasNoLineFeed text.now) }
    ensures cut { IfSome result (λ r. (text.now ≡ r.0.now ++ line_feed ∷ r.1.now) × HasNoLineFeed r.0.now) }
{
    let end = text.iter().position(|byte| *byte == b'\n')?;
    Some((&text[..end], &text[end + 1..]))
}

/// Appends bytes to the beginning of a row.
fn grow_row(row: &mut Vec<u8>, piece: &[u8]) -> Result<(), Ending>
    requires { length row.old.items ≤ max_row }
    ensures grown { OnOk result (row.new.items ≡ row.old.items ++ piece.now) }
    ensures within { OnOk result (length row.new.items ≤ max_row) }
    ensures stopped { IfErr result IsStopped }
{
    if piece.len() > MAX_ROW - row.len() {
        return Err(Ending::TooLong);
    }
    row.extend_from_slice(piece)?;
    Ok(())
}

/// Appends the answers to the rows that these bytes complete. `row` is the beginning of the next row, which is not
/// complete. On an error, the answers to the earlier rows are appended.
pub(crate) fn answer_chunk<O: Object<Call = Call, Reply = Reply>, L: Ledger, R: Wait>(
    serving: &Serving<'_, O, L, R>,
    line: &mut LockLine<L>,
    row: &mut Vec<u8>,
    chunk: &[u8],
    out: &mut Vec<u8>,
) -> Result<(), Ending>
    requires empty { out.old.items ≡ [] }
    requires partial { IsPartialRow row.old.items }
    ensures { (left : List ℕ) × (last : LockLineValue)
        × Answered (EndsLegalHistory O.reply O.after O.opening) line.old last (row.old.items ++ chunk.now) out.new.items left
        × MatchResult result
        (λ _. (row.new.items ≡ left) × IsPartialRow left × (last ≡ line.new))
        (λ ending. IsStopped ending × IsLeftAs ending last line.new) }
{
    lines_are_taken();
    let mut rest = chunk;
    let mut text = Vec::new(serving.alloc);
    while let Some((piece, more)) = first_row(rest) {
        grow_row(row, piece)?;
        answer_row(serving, line, without_return(row), &mut text, out)?;
        row.clear();
        rest = more;
    }
    grow_row(row, rest)
}
