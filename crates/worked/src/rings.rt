//! A desk over rings with a register.
ghost use Rattle.std.specs.Prelude.{◌≤◌, IfOk};
ghost use Rattle.call_history.specs.Limits.{max_entries};
ghost use Rattle.call_history.specs.RingLines.{IsLineOf, AreEndsOf};

use crate::holding::holds;
use crate::register::Register;
use call_history::laws::lines_stay;
use call_history::{
    AskFault, CallFault, DeskFault, LineEnd, RingCloseFault, RingDesk, RingLine, RingUnclosed,
    RingWire, Wire, last_line, open_rings,
};
use std::alloc::{AllocError, Global};
use std::process::Abort;
use std::test::Fail;

type Desk = RingDesk<Register>;

type Line = RingLine<Register>;

type End = LineEnd<Register>;

fn open_two(alloc: Global, most: u64) -> Result<(Desk, Line, Line), AllocError>
    requires { (1 ≤ most) × (most ≤ max_entries) }
    ensures first { IfOk result (λ opened. IsLineOf opened.0.ports opened.1) }
    ensures second { IfOk result (λ opened. IsLineOf opened.0.ports opened.2) }
{
    match open_rings(alloc, Register { value: 0 }, most, 2, 2) {
        Ok((desk, mut lines)) => {
            let second = last_line(&desk, &mut lines);
            let first = last_line(&desk, &mut lines);
            Ok((desk, first, second))
        }
        Err((_, refused)) => Err(refused),
    }
}

/// Adds an end to the ends of other lines.
fn beside<R: Abort>(rt: &R, desk: &Desk, ends: Vec<End>, end: End) -> Vec<End>
    requires ends { AreEndsOf desk.now.ports ends.items }
    requires end { IsLineOf desk.now.ports end }
    ensures { AreEndsOf desk.now.ports result.items }
{
    let mut ends = ends;
    let Ok(()) = ends.push(end) else {
        panic!(rt; "no memory");
    };
    ends
}

#[test]
fn a_line_waits_for_room(rt: HostRuntime) {
    let Ok((mut desk, mut lines)) = open_rings(rt.alloc(), Register { value: 0 }, 10, 1, 1) else {
        panic!(rt; "no memory");
    };
    let Some(line) = lines.first_mut() else {
        panic!(rt; "no line");
    };
    holds(&rt, line.post(7) == Ok(()), "a call");
    holds(
        &rt,
        line.post(8) == Err(8),
        "a call more than there is room for",
    );
    holds(&rt, desk.round() == Ok(1), "a round");
    holds(
        &rt,
        line.post(8) == Ok(()),
        "a call behind one that was served",
    );
    holds(
        &rt,
        desk.round() == Ok(0),
        "a round without room for a reply",
    );
    holds(&rt, line.take() == Some(0), "the first reply");
    holds(&rt, desk.round() == Ok(1), "a round with room for a reply");
}

#[test]
fn a_full_history_leaves_a_call_unserved(rt: HostRuntime) -> Result<(), Fail> {
    lines_stay::<Register>();
    let (mut desk, mut first, second) = open_two(rt.alloc(), 1)?;
    holds(&rt, first.post(7) == Ok(()), "a call");
    holds(&rt, first.post(8) == Ok(()), "another call");
    holds(&rt, desk.round() == Ok(1), "a round");
    let stopped = DeskFault {
        line: 0,
        cause: CallFault::Full,
        served: 0,
    };
    holds(&rt, desk.round() == Err(stopped), "a round too many");
    let ends = beside(&rt, &desk, Vec::new(rt.alloc()), first.finish());
    let ends = beside(&rt, &desk, ends, second.finish());
    let Err(unclosed) = desk.close(ends) else {
        panic!(rt; "closed");
    };
    let is_unserved = unclosed.cause == RingCloseFault::Unserved(0);
    holds(&rt, is_unserved, "the line that is not served");
    let entries = unclosed.desk.journal().entries().len();
    holds(&rt, entries == 1, "the entries");
    Ok(())
}

#[test]
fn a_line_that_is_not_there_is_missed(rt: HostRuntime) -> Result<(), Fail> {
    lines_stay::<Register>();
    let (desk, first, second) = open_two(rt.alloc(), 10)?;
    let ends = beside(&rt, &desk, Vec::new(rt.alloc()), first.finish());
    let Err(unclosed) = desk.close(ends) else {
        panic!(rt; "closed without a line");
    };
    let RingUnclosed { desk, ends, cause } = unclosed;
    let is_missing = cause == RingCloseFault::MissingLine(1);
    holds(&rt, is_missing, "the missing line");
    let ends = beside(&rt, &desk, ends, second.finish());
    holds(&rt, desk.close(ends).is_ok(), "a desk with both lines");
    Ok(())
}

#[test]
fn a_wire_without_rounds_stalls(rt: HostRuntime) -> Result<(), Fail> {
    lines_stay::<Register>();
    let (mut desk, first, second) = open_two(rt.alloc(), 10)?;
    let mut wire = RingWire::new(first, 10);
    holds(&rt, wire.ask(7) == Err(AskFault::Stalled), "a call");
    holds(&rt, wire.ask(8) == Err(AskFault::Stalled), "another call");
    let first = wire.end();
    holds(&rt, desk.round() == Ok(1), "a round");
    holds(&rt, first.taken() == 0, "the replies that were taken");
    let ends = beside(&rt, &desk, Vec::new(rt.alloc()), first.finish());
    let ends = beside(&rt, &desk, ends, second.finish());
    let Ok(closed) = desk.close(ends) else {
        panic!(rt; "not closed");
    };
    let made_by_line = closed.made_by_line.as_slice();
    holds(&rt, closed.history.len() == 1, "the entries");
    holds(
        &rt,
        made_by_line == [1, 0].as_slice(),
        "the calls of each line",
    );
    Ok(())
}
