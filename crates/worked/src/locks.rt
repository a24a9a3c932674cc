//! Four lines of a desk behind a lock, each in a separate thread.
ghost use Rattle.std.specs.Prelude.{◌≡◌};

use crate::calls::{are_calls_of, manager, ten_replies};
use crate::holding::holds;
use call_history::{
    CloseFault, Closed, LockDesk, LockLine, LockWire, MAX_ENTRIES, Unclosed, open_lock,
};
use game_core::Countdown;
use match_desk::{Manager, Reply, close_desk};
use std::alloc::{AllocError, Global};
use std::marker::Brand;
use std::process::Abort;
use std::sync::Wait;
use std::sync::ledger::{Blank, Ledger};
use std::thread;
use std::thread::Threads;

/// A line that has made its calls, and the replies.
#[derive(Drop)]
struct Made<L: Ledger> {
    line: LockLine<L>,
    replies: Option<Vec<Reply>>,
}

fn make_calls<L: Ledger, R: Wait>(
    rt: &R,
    alloc: Global,
    desk: &LockDesk<Manager<Countdown>, L>,
    line: LockLine<L>,
) -> Made<L> {
    let number = line.number();
    let mut wire = LockWire::new(rt, desk, line);
    let replies = ten_replies(alloc, &mut wire, number);
    let line = wire.end();
    Made { line, replies }
}

/// Makes the calls of each line in a separate thread.
fn ask_in_threads<L: Ledger + Send + Sync, R: Threads + Wait + Sync>(
    rt: &R,
    alloc: Global,
    desk: &LockDesk<Manager<Countdown>, L>,
    lines: Vec<LockLine<L>>,
) -> Result<Vec<Made<L>>, AllocError> {
    thread::map_vec(rt, lines, &|line| make_calls(rt, alloc, desk, line))
}

/// Fails to close the desk without the last line, and then closes it with all lines.
fn close_without_the_last<L: Ledger, R: Abort>(
    rt: &R,
    desk: LockDesk<Manager<Countdown>, L>,
    lines: Vec<LockLine<L>>,
) -> Closed<Manager<Countdown>> {
    let mut lines = lines;
    let Some(last) = lines.pop() else {
        panic!(rt; "no line");
    };
    let Err(unclosed) = close_desk(desk, lines) else {
        panic!(rt; "closed without a line");
    };
    close_with_the_last(rt, unclosed, last)
}

fn close_with_the_last<L: Ledger, R: Abort>(
    rt: &R,
    unclosed: Unclosed<Manager<Countdown>, L>,
    last: LockLine<L>,
) -> Closed<Manager<Countdown>> {
    let Unclosed {
        desk,
        mut lines,
        cause,
    } = unclosed;
    holds(rt, cause == CloseFault::MissingLine(3), "the missing line");
    let Ok(()) = lines.push(last) else {
        panic!(rt; "no memory");
    };
    let Ok(closed) = close_desk(desk, lines) else {
        panic!(rt; "not closed");
    };
    closed
}

/// Checks the desk after four lines have made ten calls each.
fn check_closed<R: Abort>(rt: &R, closed: &Closed<Manager<Countdown>>) {
    let made_by_line = closed.made_by_line.as_slice();
    holds(rt, closed.history.len() == 40, "the entries");
    holds(
        rt,
        made_by_line == [10, 10, 10, 10].as_slice(),
        "the calls of each line",
    );
    holds(rt, closed.object.matches() == 3, "the matches");
}

fn run_four_lines<L: Ledger + Send + Sync, R: Threads + Wait + Abort + Sync>(
    rt: &R,
    alloc: Global,
    blank: Blank,
)
    requires name { blank.name ≡ L.name }
    requires parts { blank.parts ≡ L.parts }
    requires one_each { blank.parts ≡ 4 }
{
    let object = manager(rt, alloc);
    let opened = open_lock::<Manager<Countdown>, L>(alloc, blank, object, MAX_ENTRIES, 4);
    let Ok((desk, lines)) = opened else {
        panic!(rt; "no memory");
    };
    let Ok(done) = ask_in_threads(rt, alloc, &desk, lines) else {
        panic!(rt; "no memory");
    };
    let (lines, replies) = parted(rt, alloc, done);
    let closed = close_without_the_last(rt, desk, lines);
    check_closed(rt, &closed);
    for (number, got) in (0..4).zip(replies.as_slice()) {
        let is_so = are_calls_of(closed.history.as_slice(), number, got.as_slice());
        holds(rt, is_so, "the calls of a line");
    }
}

/// The lines, and the replies of each line.
fn parted<L: Ledger, R: Abort>(
    rt: &R,
    alloc: Global,
    done: Vec<Made<L>>,
) -> (Vec<LockLine<L>>, Vec<Vec<Reply>>) {
    let mut lines = Vec::new(alloc);
    let mut replies = Vec::new(alloc);
    for Made { line, replies: got } in done {
        let Some(got) = got else {
            panic!(rt; "a call was refused");
        };
        let are_kept = lines.push(line).is_ok() && replies.push(got).is_ok();
        holds(rt, are_kept, "memory");
    }
    (lines, replies)
}

#[test]
fn four_threads_and_one_history(rt: HostRuntime) {
    run_four_lines::<Brand, HostRuntime>(&rt, rt.alloc(), Blank::new(4));
}
