//! One deadline for all steps of a message.
ghost use Rattle.std.specs.Prelude.{◌≡◌, ◌⊎◌, ◌-◌, ◌*◌, ◌/◌, max, min, ◌<◌, ◌≤◌, ◌↔◌, Err, IfErr, IfOk, IsOkAnd, IsSome, IsTrue, None, OnOk};
ghost use Rattle.std.specs.Duration.{as_nanos};
ghost use Rattle.std.specs.Io.{ReadsAtMost, WritesAtMost};
ghost use Rattle.std.specs.Io.KnownBytes.{ReadConsumes, WriteAppends};
ghost use Rattle.std.specs.IoError.{error_kind, raw_os_error};
ghost use Rattle.match_plans.specs.declared.shortages.Shortage.TheVariants.{Clock};
ghost use Rattle.network_players.specs.Deadlines.{HasStopped, IsCharged, IsStep, first_limit, share, try_limit};
ghost use Rattle.network_players.specs.Shortages.{IsTimeOut, failed_halt};
ghost use Rattle.http_exchange.specs.declared.received.Received.TheVariants.{Unconnected};
ghost use Rattle.network_players.specs.declared.contacting.ContactFault.TheVariants as faults;

use crate::contacting::ContactFault;
use crate::shortage::system_shortage;
use http_exchange::Received;
use match_plans::Shortage;
use std::io::{ErrorKind, Read, Write};
use std::net::OpenStream;
use std::time::{Clock, Duration, Instant};
use std::{io, thread};

/// If a step takes longer than requested by more than this many milliseconds plus an eighth of the requested time, the
/// program was not running.
const STALL_MILLIS: u64 = 100;

/// The program sleeps through this last part of a message's time, in milliseconds, because the system ends a sleep on
/// time, but it ends a wait for bytes too late.
const LAST_MILLIS: u64 = 20;

/// When the time is over, this many reads may still take bytes that have arrived. Together they can take the longest answer.
const LOOKS: u32 = 64;

/// The longest wait for bytes, in seconds. The system ends a longer one up to an eighth too late, so a pause would not show.
const LONGEST_WAIT_SECONDS: u64 = 10;

/// If a wait for an answer takes at least this many seconds longer than requested, this computer may have been paused, and an answer lost.
const PAUSE_SECONDS: u64 = 2;

const _: () = prove!(LONGEST_WAIT_SECONDS * 1_000 / 8 + STALL_MILLIS < PAUSE_SECONDS * 1_000);

/// How many seconds longer a message waits in total, because this computer may have been paused.
const MAX_GRACE_SECONDS: u64 = 120;

/// The time limit of a read whose bytes have arrived, in milliseconds.
const AT_ONCE_MILLIS: u64 = 1;

/// If a player closes the connection while it has the request only in part, a stop that ended at most this many seconds before may be the reason.
const RECENT_SECONDS: u64 = 1;

/// The time that a step costs a message. If the program was not running for a part of the step, the step costs only the requested time.
fn charged(asked: Duration, passed: Duration) -> Duration
    ensures { IsCharged (as_nanos asked) (as_nanos passed) (as_nanos result) }
{
    let over = passed.saturating_sub(asked);
    let allowed = (asked / 8).saturating_add(Duration::from_millis(STALL_MILLIS));
    if over.saturating_sub(allowed).is_zero() {
        passed
    } else {
        asked
    }
}

/// The time limit of the first attempt to connect, and of each attempt to write: a quarter of the time that is left, and at most a second.
/// Such a step mostly ends at once, so a stop of the program during the step costs the message no more than this time.
pub(crate) fn first_limit(left: Duration) -> Duration
    ensures { as_nanos result ≡ first_limit (as_nanos left) }
{
    (left / 4)
        .min(Duration::from_secs(1))
        .max(Duration::from_millis(1))
}

/// An equal share of the time that is left, for one of `among` addresses.
fn share(left: Duration, among: u32) -> Duration
    ensures { as_nanos result ≡ share (as_nanos left) among }
{
    (left / among.max(1)).max(Duration::from_millis(1))
}

/// The time limit of an attempt to connect to an address. As long as `silent` is 0, there are `untried` addresses, and each gets
/// only a short time. Then the `silent` addresses that did not answer share the time that is left, and each attempt takes at most `longest`.
pub(crate) fn try_limit(left: Duration, silent: u32, untried: usize, longest: Duration) -> Duration
    ensures { as_nanos result ≡ try_limit (as_nanos left) silent untried (as_nanos longest) }
{
    if silent > 0 {
        return share(left, silent).min(longest);
    }
    let untried = u32::try_from(untried).unwrap_or(u32::MAX);
    first_limit(left).min(share(left, untried.saturating_add(1)))
}

/// Twice the time, but at most `longest`.
pub(crate) fn doubled(time: Duration, longest: Duration) -> Duration
    ensures { as_nanos result ≡ min (as_nanos longest) (as_nanos time * 2) }
{
    time.saturating_mul(2).min(longest)
}

/// The error of a message whose time is over. The exchange adds how much of the answer has arrived.
pub(crate) const LATE: ContactFault = ContactFault::Late(Received::Unconnected);

/// The error of a message if the clock cannot be read.
const NO_CLOCK: ContactFault = ContactFault::Shortage(Shortage::Clock);

/// The time that a message has left. It runs only while the referee runs.
#[derive(Clone, Copy)]
pub struct Deadline {
    /// When the clock was last read. `left` is the time that was left then.
    pub(crate) seen: Instant,
    pub(crate) left: Duration,
    /// The time that was left when the program last continued after a stop. `None` if it was not stopped since the beginning of the last
    /// attempt to connect.
    pub(crate) stopped_at: Option<Duration>,
    /// When the first wait began that may hide a pause of this computer.
    paused_at: Option<Instant>,
    /// How much longer the message may wait because this computer may have been paused.
    grace: Duration,
    /// How many reads may still take bytes that have arrived when the time is over.
    looks: u32,
}

impl Deadline {
    /// Creates a deadline `seconds` from now. The error is `Clock` if the clock cannot be read.
    pub fn within(clock: &impl Clock, seconds: u32) -> Result<Deadline, ContactFault>
        ensures limit { IfOk result (λ deadline. as_nanos deadline.left ≡ seconds * 1_000_000_000) }
        ensures clock { IfErr result (λ fault. fault ≡ faults.Shortage Clock) }
    {
        match Instant::now(clock) {
            Ok(seen) => Ok(Deadline {
                seen,
                left: Duration::from_secs(u64::from(seconds)),
                stopped_at: None,
                paused_at: None,
                grace: Duration::from_secs(MAX_GRACE_SECONDS),
                looks: LOOKS,
            }),
            Err(_) => Err(NO_CLOCK),
        }
    }

    /// Whether the program was stopped so recently that the player may have given up because of it.
    pub(crate) fn has_stopped(&self) -> bool
        ensures { IsTrue result ↔ HasStopped self.now }
    {
        match self.stopped_at {
            Some(at) => at.saturating_sub(self.left) <= Duration::from_secs(RECENT_SECONDS),
            None => false,
        }
    }

    /// Subtracts the cost of a step that took the time `passed`. If it costs less than that, the program was not running.
    fn charge(&mut self, charged: Duration, passed: Duration)
        ensures left { as_nanos self.new.left ≡ as_nanos self.old.left - as_nanos charged }
        ensures stopped { as_nanos charged < as_nanos passed → self.new.stopped_at ≡ Some self.new.left }
        ensures running { as_nanos passed ≤ as_nanos charged → self.new.stopped_at ≡ self.old.stopped_at }
        ensures looks { self.new.looks ≡ self.old.looks }
    {
        self.left = self.left.saturating_sub(charged);
        if !passed.saturating_sub(charged).is_zero() {
            self.stopped_at = Some(self.left);
        }
    }

    /// The time that is left after a step for which the time `asked` was requested, 0 if the step does not wait. The error is `Late` if no
    /// time is left, and `Clock` if the clock cannot be read.
    pub fn after(&mut self, clock: &impl Clock, asked: Duration) -> Result<Duration, ContactFault>
        ensures some { IfOk result (λ left. 0 < as_nanos left) }
        ensures left { IfOk result (λ left. left ≡ self.new.left) }
        ensures late { IfErr result (λ fault. (fault ≡ faults.Shortage Clock) ⊎ ((fault ≡ faults.Late Unconnected) × (as_nanos self.new.left ≡ 0))) }
    {
        let Ok(now) = Instant::now(clock) else {
            return Err(NO_CLOCK);
        };
        let passed = now - self.seen;
        self.charge(charged(asked, passed), passed);
        self.seen = now;
        if self.left.is_zero() {
            Err(LATE)
        } else {
            Ok(self.left)
        }
    }

    /// If a wait that began at `begun` was much longer than requested, gives the message at least as much time as has passed since the first
    /// such wait began. If this computer was paused, the player's system repeats an answer that was lost. It doubles the time between two
    /// attempts, so the next one can take as long as all attempts before.
    fn extend(&mut self, asked: Duration, begun: Instant)
        ensures { as_nanos self.old.left ≤ as_nanos self.new.left }
    {
        if (self.seen - begun).saturating_sub(asked) < Duration::from_secs(PAUSE_SECONDS) {
            return;
        }
        let first = self.paused_at.unwrap_or(begun);
        self.paused_at = Some(first);
        let longer = (self.seen - first)
            .min(self.left.saturating_add(self.grace))
            .max(self.left);
        self.grace = self.grace.saturating_sub(longer.saturating_sub(self.left));
        self.left = longer;
    }

    /// The next step of a read. Counts a read that takes the bytes that are there.
    fn next_step(&mut self) -> Step
        ensures step { IsStep (as_nanos self.old.left) self.old.looks result }
        ensures left { self.new.left ≡ self.old.left }
        ensures looks { self.new.looks ≤ self.old.looks }
    {
        let step = step_at(self.left, self.looks);
        if matches!(step, Step::Looks) {
            self.looks = self.looks.saturating_sub(1);
        }
        step
    }
}

/// What a read of a message does next, until its bytes are there.
#[derive(Clone, Copy)]
enum Step {
    /// It waits for bytes.
    Waits(Duration),
    /// It sleeps to the end of the time.
    Sleeps(Duration),
    /// It takes the bytes that are there.
    Looks,
    /// It ends.
    Ends,
}

impl Step {
    /// The time that is requested for the step.
    fn asked(&self) -> Duration {
        match *self {
            Step::Waits(time) | Step::Sleeps(time) => time,
            Step::Looks | Step::Ends => Duration::ZERO,
        }
    }
}

/// The next step of a read, given the time that is left and how many final reads are left. A wait takes at most half the time, because the
/// system may end it too late.
fn step_at(left: Duration, looks: u32) -> Step
    ensures { IsStep (as_nanos left) looks result }
{
    if left > Duration::from_millis(LAST_MILLIS) {
        Step::Waits((left / 2).min(Duration::from_secs(LONGEST_WAIT_SECONDS)))
    } else if !left.is_zero() {
        Step::Sleeps(left)
    } else if looks > 0 {
        Step::Looks
    } else {
        Step::Ends
    }
}

/// A wait for bytes takes fewer steps than this, unless the program is stopped that often.
const MAX_STEPS: u32 = 1_000_000;

/// Whether the error means that a step ran out of time. An error with a number means that the system gave up the connection.
pub(crate) fn is_time_out(error: &io::Error) -> bool
    ensures { IsTrue result ↔ IsTimeOut (error_kind error.now) (raw_os_error error.now) }
{
    match error.kind() {
        ErrorKind::WouldBlock => true,
        ErrorKind::TimedOut => error.raw_os_error().is_none(),
        _ => false,
    }
}

/// Takes the step. Returns whether bytes or the end of the stream are there.
fn take_step<C: Clock, S: OpenStream>(clock: &C, stream: &S, step: &Step) -> io::Result<bool> {
    let mut byte = [0];
    let peeked = match *step {
        Step::Waits(time) => {
            stream.set_read_timeout(Some(time))?;
            stream.peek(&mut byte)
        }
        Step::Sleeps(time) => {
            thread::sleep(clock, time);
            return Ok(false);
        }
        Step::Looks => {
            stream.set_nonblocking(true)?;
            let peeked = stream.peek(&mut byte);
            stream.set_nonblocking(false)?;
            peeked
        }
        Step::Ends => return Ok(false),
    };
    match peeked {
        Ok(_) => Ok(true),
        Err(error) if error.kind() == ErrorKind::Interrupted || is_time_out(&error) => Ok(false),
        Err(error) => Err(error),
    }
}

/// Whether there is something to read, or the connection is closed or broken. A player sends nothing before it has the request, so in
/// both cases it does not read the request.
pub(crate) fn is_gone<C: Clock, S: OpenStream>(clock: &C, stream: &S) -> bool {
    !matches!(take_step(clock, stream, &Step::Looks), Ok(false))
}

/// Waits for bytes or the end of the stream. If the message has no time left for this, returns its halt.
fn wait_for_bytes<C: Clock, S: OpenStream>(
    clock: &C,
    stream: &S,
    deadline: &mut Deadline,
) -> io::Result<Option<ContactFault>> {
    if let Err(ContactFault::Shortage(shortage)) = deadline.after(clock, Duration::ZERO) {
        return Ok(Some(ContactFault::Shortage(shortage)));
    }
    for _ in 0..MAX_STEPS {
        let (step, begun) = (deadline.next_step(), deadline.seen);
        let is_there = take_step(clock, stream, &step);
        if let Err(ContactFault::Shortage(shortage)) = deadline.after(clock, step.asked()) {
            return Ok(Some(ContactFault::Shortage(shortage)));
        }
        deadline.extend(step.asked(), begun);
        if is_there? {
            return Ok(None);
        }
        if matches!(step, Step::Looks | Step::Ends) && deadline.left.is_zero() {
            break;
        }
    }
    Ok(Some(LATE))
}

/// The halt for a failed read or write, from the error's kind and number. `None` if the player caused the failure. A connection that the
/// system gave up at its own limit counts as closed by the player.
fn failed_halt(kind: ErrorKind, number: Option<i32>) -> Option<ContactFault>
    ensures { result ≡ failed_halt kind number }
{
    match (kind, number) {
        (ErrorKind::WouldBlock, _) | (ErrorKind::TimedOut, None) => Some(LATE),
        _ => match system_shortage(kind, number) {
            Some(shortage) => Some(ContactFault::Shortage(shortage)),
            None => None,
        },
    }
}

/// A stream with one deadline for all its reads and writes. Bytes count if they were there when the program first checked after the deadline.
/// If the program runs, it checks at once.
#[derive(Drop)]
pub struct TimedStream<'a, C, S> {
    clock: &'a C,
    pub(crate) deadline: Deadline,
    stream: S,
    /// The halt of the last read or write. `None` if the read or write counts, or if the player made it fail.
    pub(crate) halt: Option<ContactFault>,
}

impl<'a, C: Clock, S: OpenStream> TimedStream<'a, C, S> {
    pub fn new(clock: &'a C, deadline: Deadline, stream: S) -> TimedStream<'a, C, S>
        ensures deadline { result.deadline ≡ deadline }
        ensures halt { result.halt ≡ None }
    {
        TimedStream {
            clock,
            deadline,
            stream,
            halt: None,
        }
    }

    /// Stores the halt of a step that is not taken, and returns its error.
    fn halted(&mut self, halt: ContactFault) -> io::Error
        ensures kept { self.new.stream ≡ self.old.stream }
        ensures halted { IsSome self.new.halt }
    {
        self.halt = Some(halt);
        io::Error::from(ErrorKind::TimedOut)
    }

    /// Stores the halt of a step that failed with this error, and returns the error.
    fn failed(&mut self, error: io::Error) -> io::Error
        ensures kept { self.new.stream ≡ self.old.stream }
        ensures halt { self.new.halt ≡ failed_halt (error_kind error) (raw_os_error error) }
        ensures error { result ≡ error }
    {
        self.halt = failed_halt(error.kind(), error.raw_os_error());
        error
    }
}

impl<C: Clock, S: Read + OpenStream> Read for TimedStream<'_, C, S> {
    ghost remaining = { λ t. S.remaining t.stream };

    fn read(&mut self, buf: &mut [u8]) -> io::Result<usize>
        ensures bound { ReadsAtMost result buf.new }
        ensures bytes { ReadConsumes (S.remaining self.old.stream) (S.remaining self.new.stream) result buf.new }
        ensures counts { OnOk result (self.new.halt ≡ None) }
        ensures late { IfErr result (λ error. IsTimeOut (error_kind error) (raw_os_error error) → IsSome self.new.halt) }
    {
        let (stopped_at, grace) = (self.deadline.stopped_at, self.deadline.grace);
        let waited = wait_for_bytes(self.clock, &self.stream, &mut self.deadline);
        // Only a stop before the request was written can make a player give up. It is not more recent because the message got more time.
        let longer = grace.saturating_sub(self.deadline.grace);
        self.deadline.stopped_at = stopped_at.map(|at| at.saturating_add(longer));
        match waited {
            Ok(None) => {}
            Ok(Some(halt)) => return Err(self.halted(halt)),
            Err(error) => return Err(self.failed(error)),
        }
        let at_once = Duration::from_millis(AT_ONCE_MILLIS);
        let given = match self.stream.set_read_timeout(Some(at_once)) {
            Ok(()) => self.stream.read(buf),
            Err(error) => Err(error),
        };
        match given {
            Ok(count) => {
                self.halt = None;
                Ok(count)
            }
            Err(error) => Err(self.failed(error)),
        }
    }
}

impl<C: Clock, S: Write + OpenStream> TimedStream<'_, C, S> {
    /// Writes for at most `limit`, which is within the message's time.
    fn write_within(&mut self, buf: &[u8], limit: Duration) -> io::Result<usize>
        ensures bound { WritesAtMost result buf.now }
        ensures bytes { WriteAppends (S.contents self.old.stream) (S.contents self.new.stream) result buf.now }
    {
        let before = self.deadline.stopped_at;
        self.deadline.stopped_at = None;
        let taken = match self.stream.set_write_timeout(Some(limit)) {
            Ok(()) => self.stream.write(buf),
            Err(error) => Err(error),
        };
        // The next step finds out whether time is left.
        let _ = self.deadline.after(self.clock, limit);
        // A player that takes nothing while the program runs is not waiting for the rest of the request.
        let is_waiting = !matches!(&taken, Err(error) if is_time_out(error));
        if self.deadline.stopped_at.is_none() && is_waiting {
            self.deadline.stopped_at = before;
        }
        taken
    }
}

impl<C: Clock, S: Write + OpenStream> Write for TimedStream<'_, C, S> {
    ghost contents = { λ t. S.contents t.stream };

    fn write(&mut self, buf: &[u8]) -> io::Result<usize>
        ensures bound { WritesAtMost result buf.now }
        ensures bytes { WriteAppends (S.contents self.old.stream) (S.contents self.new.stream) result buf.now }
        ensures counts { OnOk result (self.new.halt ≡ None) }
        ensures late { IfErr result (λ error. IsTimeOut (error_kind error) (raw_os_error error) → IsSome self.new.halt) }
    {
        let left = match self.deadline.after(self.clock, Duration::ZERO) {
            Ok(left) => left,
            Err(halt) => return Err(self.halted(halt)),
        };
        if self.deadline.stopped_at.is_some() && is_gone(self.clock, &self.stream) {
            return Err(self.failed(io::Error::from(ErrorKind::BrokenPipe)));
        }
        match self.write_within(buf, first_limit(left)) {
            Ok(count) => {
                self.halt = None;
                Ok(count)
            }
            // The exchange repeats such a write.
            Err(error) if is_time_out(&error) => {
                Err(self.failed(io::Error::from(ErrorKind::Interrupted)))
            }
            Err(error) => Err(self.failed(error)),
        }
    }

    fn flush(&mut self) -> io::Result<()> {
        self.stream.flush()
    }
}
