//! Wakes the sleeping thread of a desk over rings, and notifies its lines when the desk stops.
use std::sync::Wait;
use std::sync::atomic::{AtomicU64, Ordering};
use std::time::Duration;

const AWAKE: u64 = 0;

const ASLEEP: u64 = 1;

/// The bell of a desk over rings. A line rings the bell after it posts a call, and when it will post no more calls. The desk's
/// thread sleeps on the bell while no call comes, and uses the bell to signal that the desk makes no further calls.
///
/// No guarantee of a desk or a line depends on the bell.
#[derive(Drop)]
pub struct Bell {
    sleep: AtomicU64,
    left: AtomicU64,
    stopped: AtomicU64,
}

impl Bell {
    /// Creates a bell that has not been rung.
    pub const fn new() -> Bell {
        Bell {
            sleep: AtomicU64::new(AWAKE),
            left: AtomicU64::new(0),
            stopped: AtomicU64::new(0),
        }
    }

    /// Wakes the desk's thread if it sleeps or is about to sleep. If the thread is awake, this costs little.
    pub fn ring(&self) {
        if self.sleep.load(Ordering::SeqCst) == ASLEEP
            && self.sleep.swap(AWAKE, Ordering::SeqCst) == ASLEEP
        {
            self.sleep.wake_all();
        }
    }

    /// Signals that one more line is done.
    pub fn leave(&self) {
        self.left.fetch_add(1, Ordering::SeqCst);
        self.ring();
    }

    /// The number of lines that are done.
    pub fn left(&self) -> u64 {
        self.left.load(Ordering::SeqCst)
    }

    /// Signals that the desk makes no further calls, so that lines can stop waiting for replies.
    pub fn stop(&self) {
        self.stopped.store(1, Ordering::SeqCst);
    }

    /// Whether the desk makes no further calls.
    pub fn has_stopped(&self) -> bool {
        self.stopped.load(Ordering::SeqCst) > 0
    }

    /// Announces that the desk's thread is about to sleep. The thread checks for calls once more after this; any later call
    /// wakes it.
    pub(crate) fn prepare_sleep(&self) {
        self.sleep.store(ASLEEP, Ordering::SeqCst);
    }

    /// Sleeps until the bell is rung, but at most for `longest`. Returns at once if the bell was rung since `prepare_sleep`.
    /// May also wake up without a ring.
    pub(crate) fn sleep<R: Wait>(&self, rt: &R, longest: Duration) {
        self.sleep.park_timeout(rt, ASLEEP as u32, longest);
        self.stay_awake();
    }

    /// Cancels `prepare_sleep`.
    pub(crate) fn stay_awake(&self) {
        self.sleep.store(AWAKE, Ordering::SeqCst);
    }
}
