//! Distributes the waiting matches of a season among its threads.
ghost use Rattle.std.specs.Prelude.{◌≡◌, ◌+◌, ◌-◌, ◌^◌, [], false, true, All, IfNone, IfSome, min};
ghost use Rattle.match_season.specs.Queues.{Begins, IsBusy, StandUp};
ghost use Rattle.match_season.specs.Scheduling.{Ends};

use crate::queue::{MatchQueue, WaitingMatch};
use std::sync::atomic::AtomicU64;
use std::sync::{Condvar, Mutex, Wait};
use std::time::Duration;

/// How many milliseconds the only thread pauses before it tries a match again. By then, the system has reclaimed the
/// resources of ended threads.
const REST: u64 = 500;

/// The next action of a thread after a match.
#[derive(Clone, Copy)]
pub enum AfterMatch {
    /// The thread sends the result, and begins another match.
    Report,
    /// The thread begins another match after the pause. The match that it played waits again.
    Retry,
    /// The thread ends, so that one fewer match is played at once. The match that it played waits again.
    EndThread,
}

/// The waiting matches and the number of threads.
#[derive(Drop)]
struct SchedulerState {
    queue: MatchQueue,
    threads: usize,
    /// Whether the only thread has paused for lack of memory or threads, and every match that has ended since then ran
    /// out of memory or threads too.
    has_rested: bool,
    /// Whether no more matches may begin.
    is_closed: bool,
}

impl SchedulerState {
    fn of(queue: MatchQueue) -> SchedulerState
        ensures queue { result.queue ≡ queue }
        ensures none_yet { (result.threads ≡ 0) × (result.has_rested ≡ false) }
        ensures open { result.is_closed ≡ false }
    {
        SchedulerState {
            queue,
            threads: 0,
            has_rested: false,
            is_closed: false,
        }
    }

    /// Counts one more thread. After this, the only thread may pause again.
    fn enter(&mut self)
        ensures { self.new ≡ record self.old { threads = min (self.old.threads + 1) (2 ^ 64 - 1); has_rested = false } }
    {
        self.threads = self.threads.saturating_add(1);
        self.has_rested = false;
    }

    /// Begins a match if one can begin. Otherwise counts one fewer thread.
    fn begin(&mut self) -> Option<WaitingMatch>
        ensures first { IfSome result (Begins self.old.queue self.new.queue) }
        ensures same { IfSome result (λ waiting_match. self.new ≡ record self.old { queue = self.new.queue }) }
        ensures none { IfNone result (All (IsBusy self.old.queue) self.old.queue.waiting.items) }
        ensures ends { IfNone result (self.new ≡ record self.old { threads = self.old.threads - 1 }) }
    {
        let begun = self.queue.take();
        if begun.is_none() {
            self.threads = self.threads.saturating_sub(1);
        }
        begun
    }

    /// Ends a match. If the match ran out of memory or threads, it waits again, unless the only thread has already
    /// paused or no more matches may begin.
    fn end(&mut self, waiting_match: WaitingMatch, is_short: bool) -> AfterMatch
        ensures stand { StandUp self.old.queue.sitting.items self.new.queue.sitting.items waiting_match.players.items }
        ensures same { self.new.is_closed ≡ self.old.is_closed }
        ensures next { Ends self.old self.new waiting_match is_short result }
    {
        self.queue.leave(&waiting_match);
        self.has_rested = self.has_rested && is_short;
        if !is_short || self.is_closed || self.threads <= 1 && self.has_rested {
            return AfterMatch::Report;
        }
        if self.queue.put_back(waiting_match).is_err() {
            return AfterMatch::Report;
        }
        if self.threads > 1 {
            self.threads = self.threads.saturating_sub(1);
            AfterMatch::EndThread
        } else {
            self.has_rested = true;
            AfterMatch::Retry
        }
    }

    /// Removes all waiting matches, and lets no match wait again.
    fn close(&mut self)
        ensures none_waits { self.new.queue.waiting.items ≡ [] }
        ensures closed { self.new.is_closed ≡ true }
        ensures same { (self.new.threads ≡ self.old.threads) × (self.new.has_rested ≡ self.old.has_rested) × (self.new.queue.sitting ≡ self.old.queue.sitting) }
    {
        self.queue.clear();
        self.is_closed = true;
    }
}

/// Lets the threads of a season begin and end their matches.
#[derive(Drop)]
pub struct Scheduler {
    state: Mutex<SchedulerState>,
    changed: Condvar,
    /// The thread that pauses sleeps on this value. No other thread wakes it.
    rest: AtomicU64,
}

impl Scheduler {
    /// A scheduler without threads.
    pub fn of(queue: MatchQueue) -> Scheduler {
        Scheduler {
            state: Mutex::new(SchedulerState::of(queue)),
            changed: Condvar::new(),
            rest: AtomicU64::new(0),
        }
    }

    /// Counts one more thread.
    pub fn enter<R: Wait>(&self, rt: &R) {
        self.state.lock(rt).enter();
    }

    /// Waits until a match can begin, and begins it. Returns `None` if no match waits; the thread must then end.
    pub fn begin<R: Wait>(&self, rt: &R) -> Option<WaitingMatch> {
        let mut state = self
            .changed
            .wait_while(rt, self.state.lock(rt), |state| state.queue.has_to_wait());
        let begun = state.begin();
        // Another match may be able to begin too. If no match waits, all threads must end.
        if state.queue.is_empty() {
            self.changed.notify_all();
        } else {
            self.changed.notify_one();
        }
        begun
    }

    /// Ends a match, and wakes a waiting thread. `is_short` says whether the match ran out of memory or threads.
    pub fn end<R: Wait>(&self, rt: &R, waiting_match: WaitingMatch, is_short: bool) -> AfterMatch {
        let next = self.state.lock(rt).end(waiting_match, is_short);
        self.changed.notify_one();
        if matches!(next, AfterMatch::Retry) {
            self.rest.park_timeout(rt, 0, Duration::from_millis(REST));
        }
        next
    }

    /// Lets no further match begin.
    pub fn close<R: Wait>(&self, rt: &R) {
        self.state.lock(rt).close();
        self.changed.notify_all();
    }
}
