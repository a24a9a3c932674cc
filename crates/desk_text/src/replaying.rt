//! Replays a call log: makes its calls one by one, on one thread, and compares the replies.
ghost use Rattle.std.specs.Prelude.{◌≡◌, ◌≢◌, IfErr, IfOk, OnOk};
ghost use Rattle.std.specs.Str.Lines.{lines};
ghost use Rattle.match_desk.specs.Steps.{reply, after};
ghost use Rattle.call_history.specs.declared.journal.Entry.{Entry};
ghost use Rattle.desk_text.specs.Account.{entry_call, entry_text, no_matches, IsAccount, IsRead};
ghost use Rattle.desk_text.specs.Replaying.{IsFirstFault, RefusesLine, TellNoHistory};
ghost use Rattle.desk_text.specs.declared.replaying.ReplayFault.TheVariants.{Memory};

use crate::account::push_entry;
use crate::entry_calls::entry_call;
use crate::line_fault::LineFault;
use crate::lines::first_line;
use call_history::Object;
use desk_calls::{Call, Reply};
use game_core::Game;
use match_desk::Manager;
use std::alloc::{AllocError, Global};

/// The result of replaying a call log.
#[derive(Drop)]
pub struct Replayed<G: Game> {
    pub manager: Manager<G>,
    /// The number of calls that were made.
    pub calls: u64,
}

/// Why a call log is refused. Each error has the number of the first wrong line, counted from 1.
#[derive(Drop)]
pub enum ReplayFault {
    Memory,
    /// The line has no valid call.
    NoEntry(u64, LineFault),
    /// The call gets a different reply, or the line is not exactly the line that `push_history` writes. The bytes are the correct line.
    Differs(u64, Vec<u8>),
}

impl From<AllocError> for ReplayFault {
    ghost use Rattle.std.specs.Prelude.{◌≡◌};
    ghost use Rattle.desk_text.specs.declared.replaying.ReplayFault.TheVariants.{Memory};

    ghost from_gives = { λ _ given. given ≡ Memory };

    fn from(_: AllocError) -> ReplayFault {
        ReplayFault::Memory
    }
}

fn entry_bytes(alloc: Global, line: u32, call: &Call, reply: &Reply) -> Result<Vec<u8>, AllocError>
    ensures { IfOk result (λ text. text.items ≡ entry_text (record { line = line; call = call.now; reply = reply.now })) }
{
    let mut text = Vec::new(alloc);
    push_entry(alloc, &mut text, line, call, reply)?;
    Ok(text)
}

/// The correct line for this call, with the object's reply at this point.
fn right_text<O: Object<Call = Call, Reply = Reply>>(
    alloc: Global,
    object: &O,
    line: u32,
    call: &Call,
) -> Result<Vec<u8>, AllocError>
    ensures { IfOk result (λ text. text.items ≡ entry_text (record { line = line; call = call.now; reply = O.reply object.now call.now })) }
{
    let reply = object.answer(alloc, call)?;
    entry_bytes(alloc, line, call, &reply)
}

/// Makes this call, which was read from the line `text` with the number `place`. Returns an error if `text` is not exactly the line
/// for the call and its reply.
fn replay_call<O: Object<Call = Call, Reply = Reply>>(
    alloc: Global,
    object: &mut O,
    place: u64,
    text: &[u8],
    line: u32,
    call: &Call,
) -> Result<(), ReplayFault>
    requires { entry_call text.now ≡ Some (line, call.now) }
    ensures ok { OnOk result ((e : Entry _ _) × (text.now ≡ entry_text e) × IsRead e × (e.reply ≡ O.reply object.old e.call) × (object.new ≡ O.after object.old e.call)) }
    ensures refused { IfErr result (RefusesLine O.reply object.old place text.now) }
{
    let right = right_text(alloc, object, line, call)?;
    if right.as_slice() != text {
        return Err(ReplayFault::Differs(place, right));
    }
    object.apply(alloc, call)?;
    Ok(())
}

/// Makes the call in the line `text` with the number `place`. Returns an error if there is no valid call, or if `text` is not
/// exactly the line for the call and its reply.
fn replay_entry<O: Object<Call = Call, Reply = Reply>>(
    alloc: Global,
    object: &mut O,
    place: u64,
    text: &[u8],
) -> Result<(), ReplayFault>
    ensures ok { OnOk result ((e : Entry _ _) × (text.now ≡ entry_text e) × IsRead e × (e.reply ≡ O.reply object.old e.call) × (object.new ≡ O.after object.old e.call)) }
    ensures refused { IfErr result (RefusesLine O.reply object.old place text.now) }
{
    match entry_call(alloc, text)? {
        Ok((line, call)) => replay_call(alloc, object, place, text, line, &call),
        Err(why) => Err(ReplayFault::NoEntry(place, why)),
    }
}

/// Makes the calls in the lines of a call log. Returns their number.
fn replay_lines<O: Object<Call = Call, Reply = Reply>>(
    alloc: Global,
    object: &mut O,
    input: &[u8],
) -> Result<u64, ReplayFault>
    ensures ok { IfOk result (IsAccount O.reply O.after object.old (lines input.now) object.new) }
    ensures fault { IfErr result (λ fault. fault ≢ Memory → IsFirstFault O.reply O.after object.old (lines input.now) fault) }
{
    let mut calls = 0;
    let mut rest = input;
    while !rest.is_empty() {
        let (line, more) = first_line(rest);
        replay_entry(alloc, object, calls + 1, line)?;
        calls += 1;
        rest = more;
    }
    Ok(calls)
}

/// Replays a call log on a new desk with these games. It accepts exactly the logs of legal histories: each line must be the one
/// that `push_history` writes for the call and its reply at this point.
pub fn replay<G: Game + Drop>(
    alloc: Global,
    games: Vec<G>,
    input: &[u8],
) -> Result<Replayed<G>, ReplayFault>
    ensures ok { IfOk result (λ r. IsAccount (reply G.rules) (after G.rules) (no_matches games.items) (lines input.now) r.manager r.calls) }
    ensures fault { IfErr result (λ fault. fault ≢ Memory → IsFirstFault (reply G.rules) (after G.rules) (no_matches games.items) (lines input.now) fault) }
    ensures refused { IfErr result (λ fault. fault ≢ Memory → TellNoHistory (reply G.rules) (after G.rules) (no_matches games.items) (lines input.now)) }
{
    let mut manager = Manager::new(alloc, games)?;
    match replay_lines(alloc, &mut manager, input) {
        Ok(calls) => Ok(Replayed { manager, calls }),
        Err(fault) => Err(fault),
    }
}
