//! Rows of bits in 64-bit words.
ghost use Rattle.std.specs.Prelude.{◌≡◌, ◌<◌, ◌+◌, ◌*◌, ◌≤◌, ℕ, IfOk, length, slice_set, take, drop, true};
ghost use Rattle.ground_rules.specs.Numbered.{bit, unset};
ghost use Rattle.packed_rules.specs.Bits.{bit_of, bits_of};

use std::alloc::{AllocError, Global};
use std::marker::Model;

const WORD: usize = 64;

/// A list of truth values, 64 in a word. Contracts see the list.
#[derive(Drop)]
pub struct BitRow {
    pub(crate) words: Vec<u64>,
    pub(crate) size: usize,
}

impl Model for BitRow {
    ghost use Rattle.std.specs.Prelude.{List, Bool, ◌≤◌, ◌*◌, length};
    ghost use Rattle.packed_rules.specs.Bits.{bits_of};

    ghost Value = { List Bool };

    ghost view = { λ r. bits_of r.words.items r.size };

    ghost invariant = { λ r. r.size ≤ length r.words.items * 64 };
}

fn test(words: &[u64], place: usize) -> bool
    requires { place < length words.now * 64 }
    ensures { result ≡ bit_of words.now place }
{
    words[place / WORD] >> (place % WORD) & 1 == 1
}

fn raise(words: &mut [u64], place: usize)
    requires { place < length words.old * 64 }
    ensures { (size : ℕ) → bits_of words.new size ≡ slice_set (bits_of words.old size) place true }
{
    words[place / WORD] |= 1 << (place % WORD);
}

/// The value at this place of a row of `size` values, or false past the end.
pub fn is_on(words: &[u64], size: usize, place: usize) -> bool
    requires { size ≤ length words.now * 64 }
    ensures { result ≡ bit (bits_of words.now size) place }
{
    if place < size {
        test(words, place)
    } else {
        false
    }
}

/// The value at this place if it is before `end`, or false.
pub fn is_on_before(words: &[u64], size: usize, end: usize, place: usize) -> bool
    requires { size ≤ length words.now * 64 }
    ensures { result ≡ bit (take end (bits_of words.now size)) place }
{
    if place < end {
        is_on(words, size, place)
    } else {
        false
    }
}

/// The value at this place counted from `start`, or false past the end.
pub fn is_on_after(words: &[u64], size: usize, start: usize, place: usize) -> bool
    requires { size ≤ length words.now * 64 }
    ensures { result ≡ bit (drop start (bits_of words.now size)) place }
{
    if start < size && place < size - start {
        test(words, start + place)
    } else {
        false
    }
}

/// Sets the value at this place counted from `start` to true. Does nothing past the end.
pub fn turn_on_after(words: &mut [u64], size: usize, start: usize, place: usize)
    requires { size ≤ length words.old * 64 }
    ensures { bits_of words.new size ≡ slice_set (bits_of words.old size) (start + place) true }
{
    if start < size && place < size - start {
        raise(words, start + place);
    }
}

impl BitRow {
    /// Creates a row of `size` values, all false.
    pub fn unset(alloc: Global, size: usize) -> Result<BitRow, AllocError>
        ensures { IfOk result (λ r. r ≡ unset size) }
    {
        let words = vec![in alloc; 0u64; size.div_ceil(WORD)]?;
        Ok(BitRow { words, size })
    }

    /// The value at this place, or false past the end.
    pub fn is_set(&self, place: usize) -> bool
        ensures { result ≡ bit self.now place }
    {
        is_on(&self.words, self.size, place)
    }

    /// Sets the value at this place to true. Does nothing past the end.
    pub fn set(&mut self, place: usize)
        ensures { self.new ≡ slice_set self.old place true }
    {
        if place < self.size {
            raise(&mut self.words, place);
        }
    }

    /// The value at this place if it is before `end`, or false.
    pub fn is_set_before(&self, end: usize, place: usize) -> bool
        ensures { result ≡ bit (take end self.now) place }
    {
        is_on_before(&self.words, self.size, end, place)
    }

    /// The value at this place counted from `start`, or false past the end.
    pub fn is_set_after(&self, start: usize, place: usize) -> bool
        ensures { result ≡ bit (drop start self.now) place }
    {
        is_on_after(&self.words, self.size, start, place)
    }

    /// Sets the value at this place to true if the place is before `end`.
    pub fn set_before(&mut self, end: usize, place: usize)
        ensures before { take end self.new ≡ slice_set (take end self.old) place true }
        ensures after { drop end self.new ≡ drop end self.old }
    {
        if place < end {
            self.set(place);
        }
    }
}

impl Clone for BitRow {
    ghost is_clone = { λ r copy. copy ≡ r };

    fn clone(&self) -> Result<BitRow, AllocError> {
        Ok(BitRow {
            words: self.words.clone()?,
            size: self.size,
        })
    }
}
