//! How a thread waits between two tries.
use std::{hint, thread};

/// The thread yields its processor once in this many tries in a row.
const YIELD_EACH: u64 = 64;

/// Waits a moment after the try with this number, counted from 0. Most of these waits only spin and are shorter than a call,
/// because on a busy computer a thread that yields its processor gets it back late.
pub fn back_off(tried: u64) {
    if tried % YIELD_EACH == YIELD_EACH - 1 {
        thread::yield_now();
    } else {
        hint::spin_loop();
    }
}
