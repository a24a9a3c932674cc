//! Desks that are full.
ghost use Rattle.std.specs.Prelude.{◌≡◌};

use crate::calls::{manager, open};
use crate::holding::holds;
use crate::register::Register;
use call_history::{CallFault, Object, open_lock};
use game_core::Countdown;
use match_desk::{Manager, Refusal, Reply};
use std::alloc::{AllocError, Global};
use std::marker::Brand;
use std::process::Abort;
use std::sync::Wait;
use std::sync::ledger::{Blank, Ledger};

/// The largest number of matches of a desk.
const MATCHES: u32 = 1_024;

/// Opens a match with this id. Returns the reply.
fn reply_to_open(
    alloc: Global,
    manager: &mut Manager<Countdown>,
    id: &str,
) -> Result<Reply, AllocError> {
    let call = open(alloc, id)?;
    let reply = manager.answer(alloc, &call)?;
    manager.apply(alloc, &call)?;
    Ok(reply)
}

/// Whether a match with this number as its id can be opened.
fn is_opened(alloc: Global, manager: &mut Manager<Countdown>, number: u32) -> bool {
    match format!(in alloc; "{number}") {
        Ok(id) => matches!(
            reply_to_open(alloc, manager, id.as_str()),
            Ok(Reply::Opened)
        ),
        Err(_) => false,
    }
}

fn check_full<R: Abort>(rt: &R, alloc: Global, manager: &mut Manager<Countdown>) {
    let mut are_opened = true;
    for number in 0..MATCHES {
        are_opened = is_opened(alloc, manager, number) && are_opened;
    }
    holds(rt, are_opened, "1,024 matches");
    let reply = reply_to_open(alloc, manager, "late");
    let is_full = matches!(reply, Ok(Reply::Refused(Refusal::DeskFull)));
    holds(rt, is_full, "one match more");
    holds(rt, manager.matches() == 1_024, "the matches that stand");
}

#[test]
fn a_desk_with_all_its_matches_opens_no_more(rt: HostRuntime) {
    let mut manager = manager(&rt, rt.alloc());
    check_full(&rt, rt.alloc(), &mut manager);
}

/// Opens a desk of one line that accepts two calls, and fills it.
fn fill_desk<L: Ledger, R: Wait + Abort>(rt: &R, alloc: Global, blank: Blank)
    requires name { blank.name ≡ L.name }
    requires parts { blank.parts ≡ L.parts }
    requires one { blank.parts ≡ 1 }
{
    let opened = open_lock::<Register, L>(alloc, blank, Register { value: 0 }, 2, 1);
    let Ok((desk, mut lines)) = opened else {
        panic!(rt; "no memory");
    };
    let Some(mut line) = lines.pop() else {
        panic!(rt; "no line");
    };
    holds(rt, desk.ask(rt, &mut line, 7) == Ok(0), "the first call");
    holds(rt, desk.ask(rt, &mut line, 8) == Ok(7), "the second call");
    let third = desk.ask(rt, &mut line, 9);
    holds(rt, third == Err(CallFault::Full), "the third call");
    holds(rt, line.made() == 2, "the calls that the line made");
}

#[test]
fn a_desk_of_two_calls_makes_no_third(rt: HostRuntime) {
    fill_desk::<Brand, HostRuntime>(&rt, rt.alloc(), Blank::new(1));
}
