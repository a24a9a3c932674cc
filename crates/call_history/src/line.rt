//! The lines of a desk behind a lock.
ghost use Rattle.std.specs.Prelude.{◌≡◌};

use std::marker::Model;
use std::sync::ledger::{Ledger, Share};

/// A line of a desk: one caller's access to the object. You can send it to another thread.
///
/// `L` is the ledger of its desk, so the lines of two desks have different types.
#[derive(Drop)]
pub struct LockLine<L: Ledger> {
    pub(crate) number: u32,
    pub(crate) made: u64,
    pub(crate) share: Share<L>,
}

impl<L: Ledger> Model for LockLine<L> {
    ghost use Rattle.std.specs.Prelude.{◌≡◌};
    ghost use Rattle.call_history.specs.Lines.{LockLineValue};

    ghost Value = { LockLineValue };

    ghost view = { λ l. record { number = l.number; made = l.made } };

    // A line has one part of the desk's ledger, and its share of the total is the number of its calls.
    ghost invariant = { λ l. (l.share.parts ≡ 1) × (l.share.amount ≡ l.made) };
}

impl<L: Ledger> LockLine<L> {
    /// The line's number. The lines of a desk are numbered from 0.
    pub fn number(&self) -> u32
        ensures { result ≡ self.now.number }
    {
        self.number
    }

    /// The number of calls of this line that got a reply.
    pub fn made(&self) -> u64
        ensures { result ≡ self.now.made }
    {
        self.made
    }
}
