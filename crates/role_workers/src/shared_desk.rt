//! A desk over rings, under a lock. A thread that waits for a reply serves the lines itself, so no call moves to
//! another thread.
ghost use Rattle.std.specs.Prelude.{◌≡◌, Option, Some, MatchResult, length};
ghost use Rattle.std.specs.Option.{ForSome};
ghost use Rattle.call_history.specs.Rounds.{RingDeskValue, Visits};
ghost use Rattle.desk_calls.specs.declared.call.Call.{Call};
ghost use Rattle.desk_calls.specs.declared.call.Reply.{Reply};
ghost use Rattle.role_workers.specs.SharedDesks.{IsDeskAfter};
ghost use Rattle.role_workers.specs.Internal.ShortRounds.{rounds_left, stops_for};

use crate::attend_fault::AttendFault;
use call_history::laws::desks_stay;
use call_history::{AskFault, Bell, CallFault, DeskFault, Object, Pause, RingDesk};
use desk_calls::{Call, Reply};
use std::marker::{Brand, PhantomData};
use std::sync::atomic::{AtomicBool, Ordering};
use std::sync::{Mutex, Wait};
use std::time::Duration;

/// The longest sleep, in milliseconds, of the thread that opened the desk. When it wakes up, it retries a call that
/// could not be made.
const LONGEST_SLEEP: u64 = 1_000;

/// The largest number of consecutive rounds that may run out of memory for a call.
const MAX_SHORT_ROUNDS: u64 = 10_000;

/// Names the desk under the lock. A contract cannot name a value under a lock, so each match has a type that names its
/// desk.
pub trait DeskBrand<O> {
    ghost desk: { Option (RingDeskValue O Call Reply) };
}

impl<O> DeskBrand<O> for Brand {
    ghost use Rattle.std.specs.Prelude.{None};

    ghost desk = { None };
}

/// The desk that `N` names, after some rounds.
#[derive(Drop)]
struct NamedDesk<O: Object<Call = Call, Reply = Reply>, N: DeskBrand<O>> {
    desk: RingDesk<O>,
    /// How many more consecutive rounds may run out of memory for a call.
    rounds_left: u64,
    of: PhantomData<N>,
    ghost same: { ForSome N.desk (λ first. IsDeskAfter O.opening first desk) },
}

impl<O: Object<Call = Call, Reply = Reply>, N: DeskBrand<O>> NamedDesk<O, N> {
    /// Serves a round and counts it. If the round stops at a line, it has visited all lines before it.
    fn round(&mut self) -> Result<u64, DeskFault>
        ensures visits { MatchResult result
            (λ _. Visits self.old.desk.journal.history self.new.desk.journal.history self.old.desk.ports self.new.desk.ports (length self.old.desk.ports))
            (λ fault. Visits self.old.desk.journal.history self.new.desk.journal.history self.old.desk.ports self.new.desk.ports fault.line) }
        ensures counted { self.new.rounds_left ≡ rounds_left self.old.rounds_left result }
    {
        desks_stay::<O>();
        let served = self.desk.round();
        self.rounds_left = rounds_left(self.rounds_left, &served);
        served
    }

    /// Whether the desk stops after a round with this error.
    fn stops_for(&self, cause: CallFault) -> bool
        ensures { result ≡ stops_for self.now.rounds_left cause }
    {
        match cause {
            CallFault::Full => true,
            CallFault::Memory => self.rounds_left == 0,
        }
    }
}

/// How many more consecutive rounds may run out of memory for a call, after a round with this result.
fn rounds_left(before: u64, served: &Result<u64, DeskFault>) -> u64
    ensures { result ≡ rounds_left before served.now }
{
    match served {
        Ok(_) => MAX_SHORT_ROUNDS,
        Err(fault) => match fault.cause {
            CallFault::Full => MAX_SHORT_ROUNDS,
            CallFault::Memory => before.saturating_sub(1),
        },
    }
}

/// A desk over rings that any thread can serve.
#[derive(Drop)]
pub struct SharedDesk<O: Object<Call = Call, Reply = Reply>, N: DeskBrand<O>> {
    locked: Mutex<NamedDesk<O, N>>,
    bell: Bell,
    is_short: AtomicBool,
}

impl<O: Object<Call = Call, Reply = Reply>, N: DeskBrand<O>> SharedDesk<O, N> {
    /// Puts the desk under a lock.
    pub fn new(desk: RingDesk<O>) -> SharedDesk<O, N>
        requires { N.desk ≡ Some desk }
    {
        desks_stay::<O>();
        let named = NamedDesk {
            desk,
            rounds_left: MAX_SHORT_ROUNDS,
            of: PhantomData,
        };
        SharedDesk {
            locked: Mutex::new(named),
            bell: Bell::new(),
            is_short: AtomicBool::new(false),
        }
    }

    /// Serves a round, unless another thread is serving one. Returns whether it served a complete round. If a call
    /// could not be made, the next round tries it again. If the history is full, or `MAX_SHORT_ROUNDS` consecutive
    /// rounds ran out of memory for a call, the desk stops. Without this limit, the threads that wait for a reply would
    /// do nothing else for minutes.
    pub fn serve(&self) -> bool {
        let Some(mut named) = self.locked.try_lock() else {
            return false;
        };
        let served = named.round();
        if let Err(DeskFault { cause, .. }) = served {
            if named.stops_for(cause) {
                self.stop(AttendFault::from(AskFault::from(cause)));
            }
        }
        served.is_ok()
    }

    /// Ends all threads that use this desk, because of this error. Each wire that waits for a reply, or makes another
    /// call, stalls.
    pub fn stop(&self, fault: AttendFault) {
        if fault == AttendFault::Memory {
            self.is_short.store(true, Ordering::SeqCst);
        }
        self.bell.stop();
    }

    /// Whether the desk was stopped because memory ran out.
    pub fn is_short(&self) -> bool {
        self.is_short.load(Ordering::SeqCst)
    }

    /// Whether the desk has stopped: a round found the history full, too many consecutive rounds ran out of memory for
    /// a call, or `stop` was called.
    pub fn has_stopped(&self) -> bool {
        self.bell.has_stopped()
    }

    /// The bell that a worker rings when it ends.
    pub fn bell(&self) -> &Bell {
        &self.bell
    }

    /// Serves rounds until `workers` workers have ended. Workers serve their own calls, so this thread sleeps most of
    /// the time. When a worker ends, it wakes this thread.
    pub fn serve_until<R: Wait>(&self, rt: &R, workers: u64) {
        let mut pause = Pause::new(&self.bell, Duration::from_millis(LONGEST_SLEEP));
        for _ in rt.forever() {
            if self.bell.left() >= workers {
                break;
            }
            self.serve();
            pause.rest(rt);
        }
    }

    /// Takes the desk out of the lock. After this, no thread serves the desk.
    pub fn into_desk(self) -> RingDesk<O>
        ensures { ForSome N.desk (λ first. IsDeskAfter O.opening first result) }
    {
        let SharedDesk { locked, .. } = self;
        locked.into_inner().desk
    }
}
