//! Lines that are returned to their desk: their numbers, and the calls that they made.
//!
//! The tables `found`, `awaited` and `made_by_line` have one place for each number, and never grow.
ghost use Rattle.std.specs.Prelude.{◌≡◌, ◌<◌, ◌^◌, IfSome, IfNone, ℕ, true, false, length, map, replicate, slice_index, slice_index_or, sum, Contains};
ghost use Rattle.call_history.specs.Lines.{numbers, has_number, HasAll, IsLowestMissing};

use crate::line::LockLine;
use std::sync::ledger::{Ledger, Share};

/// A line that is returned to its desk, which is behind a lock or over rings.
pub(crate) trait Numbered {
    ghost number: { Self → ℕ };

    fn number(&self) -> u32
        ensures { result ≡ number self.now };
}

impl<L: Ledger> Numbered for LockLine<L> {
    ghost number = { λ line. line.number };

    fn number(&self) -> u32 {
        self.number
    }
}

fn note_numbers<N: Numbered>(lines: &[N], found: &mut [bool])
    ensures { (k : ℕ) → k < length found.old → slice_index_or found.new k false ≡ has_number k (map N.number lines.now) }
{
    found.fill(false);
    for line in lines {
        let place = line.number() as usize;
        if place < found.len() {
            found[place] = true;
        }
    }
}

/// The lowest number with a place in `found` that is not the number of a line. If there is none, this sets all of `found`
/// to true.
pub(crate) fn lowest_missing<N: Numbered>(lines: &[N], found: &mut [bool]) -> Option<u32>
    requires { length found.old < 2 ^ 32 }
    ensures some { IfSome result (λ n. IsLowestMissing (map N.number lines.now) (length found.old) n) }
    ensures none { IfNone result (HasAll (map N.number lines.now) (length found.old)) }
    ensures all_found { IfNone result ((k : ℕ) → k < length found.old → slice_index_or found.new k false ≡ true) }
{
    note_numbers(lines, found);
    for (number, is_found) in found.iter().enumerate() {
        if !*is_found {
            return Some(number as u32);
        }
    }
    None
}

/// Combines the shares of the lines, and stores how many calls each line made. A place of `awaited` is true until the line
/// with that number has come. Drops a second line with the same number, and a line with a number that has no place.
pub(crate) fn gather<L: Ledger>(
    lines: Vec<LockLine<L>>,
    awaited: &mut [bool],
    made_by_line: &mut [u64],
    gathered: &mut Share<L>,
)
    requires all { HasAll (numbers lines.items) (length awaited.old) }
    requires awaited { (k : ℕ) → k < length awaited.old → slice_index_or awaited.old k false ≡ true }
    requires zeros { made_by_line.old ≡ replicate (length awaited.old) 0 }
    requires no_parts { gathered.old.parts ≡ 0 }
    requires no_amount { gathered.old.amount ≡ 0 }
    ensures parts { gathered.new.parts ≡ length awaited.old }
    ensures amount { gathered.new.amount ≡ sum made_by_line.new }
    ensures made { (k : ℕ) → k < length awaited.old → Contains lines.items (record { number = k; made = slice_index made_by_line.new k }) }
{
    for line in lines {
        let LockLine {
            number,
            made,
            share,
        } = line;
        let place = number as usize;
        if place < awaited.len() && awaited[place] {
            awaited[place] = false;
            made_by_line[place] = made;
            gathered.merge(share);
        }
    }
}
