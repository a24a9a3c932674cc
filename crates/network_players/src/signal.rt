//! How the players of a match wait between their messages, and the signal that wakes them and stores what the referee lacked.
ghost use Rattle.std.specs.Prelude.{◌≡◌, ◌+◌, ◌-◌, ◌*◌, ◌^◌, min, IfNone, IfOk, IsFalse, IsTrue, length, true};
ghost use Rattle.std.specs.Duration.{as_nanos};

use crate::shortage::{code_of, coded};
use match_plans::Shortage;
use std::alloc::{AllocError, Global};
use std::sync::Wait;
use std::sync::atomic::{AtomicU64, Ordering};
use std::time::{Clock, Duration, Instant};

/// The longest first wait of a player after a message, in milliseconds.
const FIRST_REST_MILLIS: u64 = 100;

/// The longest wait, in milliseconds.
const LONGEST_REST_MILLIS: u64 = 2_000;

const NO_SHORTAGE: u64 = 0;

/// The signal that the players of a match share. It says when a round begins, and what the referee lacked.
///
/// A round begins when a player gets its next message, since each role gets one message in a round. No guarantee depends on when a
/// player is woken: a player that is not woken continues when its wait ends.
#[derive(Drop)]
pub struct RoundSignal {
    /// The highest number of a message that a player got.
    latest: AtomicU64,
    /// How often the waiting players were woken.
    calls: AtomicU64,
    /// The number of players that exist.
    seated: AtomicU64,
    /// The number of players that may get another message, and of those that wait.
    players: AtomicU64,
    resting: AtomicU64,
    /// The code of what the referee lacked last.
    shortage: AtomicU64,
}

impl RoundSignal {
    /// Creates the signal of a new match.
    pub const fn new() -> RoundSignal {
        RoundSignal {
            latest: AtomicU64::new(0),
            calls: AtomicU64::new(0),
            seated: AtomicU64::new(0),
            players: AtomicU64::new(0),
            resting: AtomicU64::new(0),
            shortage: AtomicU64::new(NO_SHORTAGE),
        }
    }

    /// Creates the signals of `count` new matches. The only error is out of memory.
    pub fn many(alloc: Global, count: usize) -> Result<Vec<RoundSignal>, AllocError>
        ensures { IfOk result (λ signals. length signals.items ≡ count) }
    {
        let mut signals = Vec::with_capacity(alloc, count)?;
        for _ in 0..count {
            signals.push(RoundSignal::new())?;
        }
        Ok(signals)
    }

    /// Stores what the referee lacked in the match. Such a match has no record.
    pub(crate) fn note(&self, shortage: Shortage) {
        self.shortage.store(code_of(shortage), Ordering::SeqCst);
    }

    /// What the referee lacked in the match last, if anything. This is reset when a player is made while there are no others.
    pub fn shortage(&self) -> Option<Shortage> {
        coded(self.shortage.load(Ordering::SeqCst))
    }

    fn calls(&self) -> u64 {
        self.calls.load(Ordering::SeqCst)
    }

    /// Wakes all waiting players. Returns how often they had been woken before.
    fn call(&self) -> u64 {
        let calls = self.calls.fetch_add(1, Ordering::SeqCst);
        self.calls.wake_all();
        calls
    }

    /// Notes that a player leaves. Then the match is usually over, so the other players are woken.
    fn leave(&self) {
        self.players.fetch_sub(1, Ordering::SeqCst);
        self.call();
    }
}

/// The time since `moment`, or 0 if there is no moment or the clock cannot be read.
pub fn time_since(clock: &impl Clock, moment: Option<Instant>) -> Duration
    ensures { IfNone moment (as_nanos result ≡ 0) }
{
    match moment {
        Some(moment) => moment.elapsed(clock).unwrap_or(Duration::ZERO),
        None => Duration::ZERO,
    }
}

/// The limit of the wait after a wait of at most `rest`.
fn rest_after(rest: Duration) -> Duration
    ensures { as_nanos result ≡ min 2_000_000_000 (as_nanos rest * 2) }
{
    let longest = Duration::from_millis(LONGEST_REST_MILLIS);
    let doubled = rest.saturating_mul(2);
    if doubled < longest { doubled } else { longest }
}

/// The waits of a player between its messages. Each wait ends when a round begins. The first wait after a message takes at
/// most a tenth of a second, and each further wait at most twice as long as the one before, up to two seconds.
pub struct Pace<'a> {
    signal: &'a RoundSignal,
    /// The number of messages that the player got.
    messages: u64,
    /// The number of times that the players had been woken when the role last asked what is due.
    seen: u64,
    /// The longest next wait.
    rest: Duration,
    /// Whether the player has waited since its last message.
    has_rested: bool,
    has_left: bool,
}

/// A player leaves when it is dropped, if it has not left before.
impl Drop for Pace<'_> {
    fn drop(self) {
        let Pace {
            signal,
            messages: _,
            seen: _,
            rest: _,
            has_rested: _,
            has_left,
        } = self;
        if !has_left {
            signal.leave();
        }
        signal.seated.fetch_sub(1, Ordering::SeqCst);
    }
}

impl<'a> Pace<'a> {
    /// Creates the pace of a new player in the match of this signal.
    pub fn new(signal: &'a RoundSignal) -> Pace<'a>
        ensures rest { as_nanos result.rest ≡ 100_000_000 }
        ensures here { IsFalse result.has_left }
    {
        // The first player begins a match, so what an earlier attempt has stored is reset.
        if signal.seated.fetch_add(1, Ordering::SeqCst) == 0 {
            signal.latest.store(0, Ordering::SeqCst);
            signal.shortage.store(NO_SHORTAGE, Ordering::SeqCst);
        }
        signal.players.fetch_add(1, Ordering::SeqCst);
        Pace {
            signal,
            messages: 0,
            seen: signal.calls(),
            rest: Duration::from_millis(FIRST_REST_MILLIS),
            has_rested: false,
            has_left: false,
        }
    }

    /// Notes that the player gets a message, so a round has begun. If the number of the message is the highest so far, this wakes all
    /// waiting players.
    pub fn begin(&mut self)
        ensures { self.new ≡ record self.old { messages = min (2 ^ 64 - 1) (self.old.messages + 1) } }
    {
        self.messages = self.messages.saturating_add(1);
        let latest = self
            .signal
            .latest
            .fetch_max(self.messages, Ordering::SeqCst);
        if latest < self.messages {
            self.signal.call();
        }
    }

    /// Notes that the player has answered the message.
    pub fn end(&mut self)
        ensures rest { as_nanos self.new.rest ≡ 100_000_000 }
        ensures rested { IsFalse self.new.has_rested }
        ensures others { (self.new.messages ≡ self.old.messages) × (self.new.has_left ≡ self.old.has_left) }
    {
        self.seen = self.signal.calls();
        self.rest = Duration::from_millis(FIRST_REST_MILLIS);
        self.has_rested = false;
    }

    /// Notes that the player gets no more messages.
    pub fn leave(&mut self)
        ensures { self.new ≡ record self.old { has_left = true } }
    {
        if !self.has_left {
            self.has_left = true;
            self.signal.leave();
        }
    }

    /// Waits. If all other players are waiting too, this wakes them, once after each message: the player's answer may
    /// have retired the player, and the round may have begun without a message to it.
    pub fn rest<R: Wait>(&mut self, rt: &R)
        ensures rest { as_nanos self.new.rest ≡ min 2_000_000_000 (as_nanos self.old.rest * 2) }
        ensures rested { IsTrue self.new.has_rested }
        ensures others { (self.new.messages ≡ self.old.messages) × (self.new.has_left ≡ self.old.has_left) }
    {
        let signal = self.signal;
        let others = signal.resting.fetch_add(1, Ordering::SeqCst);
        let all_rest = others.saturating_add(1) >= signal.players.load(Ordering::SeqCst);
        if all_rest && !self.has_rested && signal.call() == self.seen {
            // The player's own wake-up must not end its wait.
            self.seen = self.seen.wrapping_add(1);
        }
        self.has_rested = true;
        // The wait may end for no reason.
        let seen = (self.seen & 0xffff_ffff) as u32;
        signal.calls.park_timeout(rt, seen, self.rest);
        signal.resting.fetch_sub(1, Ordering::SeqCst);
        self.rest = rest_after(self.rest);
        // This is read before the role asks again, so that any later signal ends the next wait.
        self.seen = signal.calls();
    }
}
