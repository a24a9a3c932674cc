//! How the thread of a desk over rings rests while no call comes.
use crate::bell::Bell;
use std::sync::Wait;
use std::time::Duration;
use std::{hint, thread};

/// The number of rests in a row that only spin. Together they take about as long as a line needs for its next call.
const SPINS: u32 = 64;

/// The number of further rests that yield the processor to another thread, before the thread sleeps.
const YIELDS: u32 = 8;

/// Counts how often in a row the thread of a desk rests. In a short wait the thread does not sleep, so it finds a call without
/// delay. In a long wait it sleeps, so the wait takes no processor time.
#[derive(Drop)]
pub struct Pause<'a> {
    bell: &'a Bell,
    longest: Duration,
    spins: u32,
    yields: u32,
    is_prepared: bool,
}

impl<'a> Pause<'a> {
    /// Creates the state before the first rest. No sleep is longer than `longest`, even if no line rings.
    pub fn new(bell: &'a Bell, longest: Duration) -> Pause<'a> {
        Pause {
            bell,
            longest,
            spins: SPINS,
            yields: YIELDS,
            is_prepared: false,
        }
    }

    /// Rests once, after the thread found no call. Before a sleep, the thread checks once more after `prepare_sleep`, so
    /// that it does not miss a ring.
    pub fn rest<R: Wait>(&mut self, rt: &R) {
        if self.spins > 0 {
            self.spins -= 1;
            hint::spin_loop();
        } else if self.yields > 0 {
            self.yields -= 1;
            thread::yield_now();
        } else if self.is_prepared {
            self.is_prepared = false;
            self.bell.sleep(rt, self.longest);
        } else {
            self.is_prepared = true;
            self.bell.prepare_sleep();
        }
    }

    /// Starts a new count, because the thread found a call.
    pub fn end(&mut self) {
        self.spins = SPINS;
        self.yields = YIELDS;
        if self.is_prepared {
            self.is_prepared = false;
            self.bell.stay_awake();
        }
    }
}
