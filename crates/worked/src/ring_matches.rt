//! A desk over rings with matches of Countdown.
ghost use Rattle.std.specs.Prelude.{◌≤◌};
ghost use Rattle.call_history.specs.Limits.{max_lines};

use crate::calls::{are_calls_of, manager, open, ten_replies, text};
use crate::holding::holds;
use call_history::{MAX_ENTRIES, RingDesk, RingLine, RingWire, open_rings};
use game_core::Countdown;
use match_desk::{Call, Manager, Refusal, Reply};
use std::alloc::{AllocError, Global};
use std::process::Abort;
use std::sync::Wait;
use std::sync::atomic::{AtomicU64, Ordering};
use std::thread;
use std::thread::Threads;

type Desk = RingDesk<Manager<Countdown>>;

type Line = RingLine<Manager<Countdown>>;

/// How many calls, and how many replies, can wait on a line.
const ROOM: u64 = 2;

/// How often a line tries to post a call or to take its reply.
const TRIES: u64 = 1_000_000_000;

fn open_desk<R: Abort>(rt: &R, alloc: Global, lines: u32) -> (Desk, Vec<Line>)
    requires { (1 ≤ lines) × (lines ≤ max_lines) }
{
    let object = manager(rt, alloc);
    let Ok(opened) = open_rings(alloc, object, MAX_ENTRIES, lines, ROOM) else {
        panic!(rt; "no memory");
    };
    opened
}

fn submit(alloc: Global, role: usize, round: u64, answer: &str) -> Result<Call, AllocError> {
    Ok(Call::Submit {
        id: text(alloc, "m1")?,
        role,
        round,
        text: text(alloc, answer)?,
    })
}

fn is_posted(line: &mut Line, call: Result<Call, AllocError>) -> bool {
    match call {
        Ok(call) => line.post(call).is_ok(),
        Err(_) => false,
    }
}

/// Whether the line can make the call while no other line has posted a call.
fn is_made(desk: &mut Desk, line: &mut Line, call: Result<Call, AllocError>) -> bool {
    is_posted(line, call) && desk.round() == Ok(1) && line.take().is_some()
}

fn check_first_round<R: Abort>(
    rt: &R,
    alloc: Global,
    desk: &mut Desk,
    first: &mut Line,
    second: &mut Line,
) {
    let is_ready = is_made(desk, first, open(alloc, "m1"))
        && is_made(desk, first, submit(alloc, 0, 0, "READY"))
        && is_made(desk, first, submit(alloc, 1, 0, "READY"));
    holds(rt, is_ready, "a match in its first round");
    let are_posted = is_posted(first, submit(alloc, 0, 1, "(take 1)"))
        && is_posted(second, late(alloc));
    holds(rt, are_posted, "two answers of one role");
    holds(rt, desk.round() == Ok(2), "a round");
    let is_taken = matches!(first.take(), Some(Reply::Taken));
    holds(rt, is_taken, "the first answer");
    let is_twice = matches!(second.take(), Some(Reply::Refused(Refusal::Twice)));
    holds(rt, is_twice, "the second answer");
}

/// The call that reports that the first role gave no answer in the first round.
fn late(alloc: Global) -> Result<Call, AllocError> {
    Ok(Call::Miss {
        id: text(alloc, "m1")?,
        role: 0,
        round: 1,
        broken: false,
    })
}

#[test]
fn the_lower_line_answers_first(rt: HostRuntime) {
    let (mut desk, mut lines) = open_desk(&rt, rt.alloc(), 2);
    let (Some(mut second), Some(mut first)) = (lines.pop(), lines.pop()) else {
        panic!(rt; "no lines");
    };
    check_first_round(&rt, rt.alloc(), &mut desk, &mut first, &mut second);
}

/// Serves the lines until they are done.
fn serve(desk: Desk, is_over: &AtomicU64) -> Desk {
    let mut desk = desk;
    for _ in 0..u64::MAX {
        if is_over.load(Ordering::SeqCst) > 0 {
            break;
        }
        if desk.round() == Ok(0) {
            thread::yield_now();
        }
    }
    desk
}

fn make_calls(alloc: Global, line: Line) -> Option<Vec<Reply>> {
    let number = line.number();
    ten_replies(alloc, &mut RingWire::new(line, TRIES), number)
}

/// Four lines make ten calls each, in separate threads.
fn run_four_lines<R: Threads + Wait + Abort + Sync>(rt: &R, alloc: Global) {
    let (desk, lines) = open_desk(rt, alloc, 4);
    let is_over = AtomicU64::new(0);
    let is_over = &is_over;
    let (desk, done) = thread::join(
        rt,
        move || serve(desk, is_over),
        move || {
            let done = thread::map_vec(rt, lines, &|line| make_calls(alloc, line));
            is_over.store(1, Ordering::SeqCst);
            done
        },
    );
    let Ok(replies) = done else {
        panic!(rt; "no memory");
    };
    check_four_lines(rt, &desk, replies.as_slice());
}

fn check_four_lines<R: Abort>(rt: &R, desk: &Desk, replies: &[Option<Vec<Reply>>]) {
    let journal = desk.journal();
    holds(rt, journal.entries().len() == 40, "the entries");
    holds(rt, journal.object().matches() == 3, "the matches");
    for (number, got) in (0..4).zip(replies) {
        let is_so = match got {
            Some(got) => are_calls_of(journal.entries(), number, got.as_slice()),
            None => false,
        };
        holds(rt, is_so, "the calls of a line");
    }
}

#[test]
fn four_threads_over_rings(rt: HostRuntime) {
    run_four_lines(&rt, rt.alloc());
}
