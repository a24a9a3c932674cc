//! Reads the calls of a call log.
ghost use Rattle.std.specs.Prelude.{◌≡◌, IfOk};
ghost use Rattle.std.specs.Result.{result_ok};
ghost use Rattle.desk_text.specs.Account.{account_call, entry_call, unescaped_call};
ghost use Rattle.desk_text.specs.Escapes.{read_as};

use crate::escapes::{unescape, unescape_all};
use crate::line_fault::{FaultKind, LineFault};
use crate::script_lines::{ACCOUNT, call_in};
use crate::words::{first_piece, plain_number_up_to};
use desk_calls::Call;
use std::alloc::{AllocError, Global};

/// Removes the escapes from a call's names and its text. Returns false if an escape is invalid.
fn unescape_call(call: &mut Call) -> bool
    ensures { unescaped_call call.old ≡ read_as result call.new }
{
    match call {
        Call::Open { id, players, .. } => unescape(id) && unescape_all(&mut players.items),
        Call::Submit { id, text, .. } => unescape(id) && unescape(text),
        Call::Next { id, .. } => unescape(id),
        Call::Miss { id, .. } => unescape(id),
        Call::Query { id } => unescape(id),
        Call::Abort { id } => unescape(id),
    }
}

fn account_call(alloc: Global, text: &[u8]) -> Result<Result<Call, LineFault>, AllocError>
    ensures { IfOk result (λ found. result_ok found ≡ account_call text.now) }
{
    let mut call = match call_in(alloc, ACCOUNT, text)? {
        Ok(call) => call,
        Err(fault) => return Ok(Err(fault)),
    };
    if unescape_call(&mut call) {
        Ok(Ok(call))
    } else {
        Ok(Err(LineFault::at(text, FaultKind::NoCall)))
    }
}

/// The number of the line of the desk, and the call, in a line of a call log.
pub(crate) fn entry_call(
    alloc: Global,
    text: &[u8],
) -> Result<Result<(u32, Call), LineFault>, AllocError>
    ensures { IfOk result (λ found. result_ok found ≡ entry_call text.now) }
{
    let (number, Some(rest)) = first_piece(text, b'\t') else {
        return Ok(Err(LineFault::at(b"", FaultKind::FewerFields)));
    };
    let (words, _) = first_piece(rest, b'\t');
    let Some(number) = plain_number_up_to(number, u64::from(u32::MAX)) else {
        return Ok(Err(LineFault::at(text, FaultKind::NoLine)));
    };
    let line = number as u32;
    match account_call(alloc, words)? {
        Ok(call) => Ok(Ok((line, call))),
        Err(fault) => Ok(Err(LineFault {
            left: fault
                .left
                .saturating_add(rest.len().saturating_sub(words.len())),
            kind: fault.kind,
        })),
    }
}
