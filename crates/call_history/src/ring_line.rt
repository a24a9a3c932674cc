//! The lines of a desk over rings.

use crate::gathering::Numbered;
use crate::object::Object;
use rtrb::{Consumer, Producer, PushError};
use std::marker::Model;

/// A line of a desk: a caller's ends of two rings, one for its calls and one for the replies. You can send it to another
/// thread. No method waits.
#[derive(Drop)]
pub struct RingLine<O: Object> {
    number: u32,
    pub(crate) calls: Producer<O::Call>,
    pub(crate) replies: Consumer<O::Reply>,
    posted: u64,
    taken: u64,
}

impl<O: Object> Model for RingLine<O> {
    ghost use Rattle.std.specs.Prelude.{◌≡◌, length};
    ghost use Rattle.rtrb.specs.Ring.{sent, received};
    ghost use Rattle.call_history.specs.RingLines.{LineValue};

    ghost Value = { LineValue O.Call O.Reply };

    ghost view = { λ l. record { number = l.number; calls = l.calls; replies = l.replies } };

    ghost invariant = { λ l. (l.posted ≡ length (sent l.calls)) × (l.taken ≡ length (received l.replies)) };
}

/// The end of a line: a line that posts no more calls. To close a desk, you need the ends of all its lines. Contracts see the line.
#[derive(Drop)]
pub struct LineEnd<O: Object> {
    pub(crate) line: RingLine<O>,
}

impl<O: Object> Model for LineEnd<O> {
    ghost use Rattle.call_history.specs.RingLines.{LineValue};

    ghost Value = { LineValue O.Call O.Reply };

    ghost view = { λ e. e.line };
}

impl<O: Object> RingLine<O> {
    ghost use Rattle.std.specs.Prelude.{◌≡◌, ◌∷◌, ◌++◌, [], ◌<◌, ◌-◌, ◌^◌, length, OnOk, IsOk, IsSome, IfErr, IfSome, IfNone};
    ghost use Rattle.rtrb.specs.Ring.{sent, received, known_items, known_free};
    ghost use Rattle.call_history.specs.RingLines.{posted_calls, taken_replies, SameLine};

    pub(crate) fn new(
        number: u32,
        calls: Producer<O::Call>,
        replies: Consumer<O::Reply>,
    ) -> RingLine<O>
        requires unused { (sent calls ≡ []) × (received replies ≡ []) }
        ensures number { result.number ≡ number }
        ensures rings { (result.calls ≡ calls) × (result.replies ≡ replies) }
    {
        RingLine {
            number,
            calls,
            replies,
            posted: 0,
            taken: 0,
        }
    }

    /// The line's number. The lines of a desk are numbered from 0.
    pub fn number(&self) -> u32
        ensures { result ≡ self.now.number }
    {
        self.number
    }

    /// The number of calls that the line posted.
    pub fn posted(&self) -> u64
        ensures { result ≡ length (posted_calls self.now) }
    {
        self.posted
    }

    /// The number of replies that the line took.
    pub fn taken(&self) -> u64
        ensures { result ≡ length (taken_replies self.now) }
    {
        self.taken
    }

    /// Posts a call. Returns the call if the ring has no free slot, or if the line has posted 2^64 - 1 calls.
    pub fn post(&mut self, call: O::Call) -> Result<(), O::Call>
        ensures line { SameLine self.old self.new }
        ensures taken { taken_replies self.new ≡ taken_replies self.old }
        ensures ok { OnOk result (posted_calls self.new ≡ posted_calls self.old ++ call ∷ []) }
        ensures back { IfErr result (λ c. (c ≡ call) × (posted_calls self.new ≡ posted_calls self.old)) }
        ensures room { 0 < known_free self.old.calls → length (posted_calls self.old) < 2 ^ 64 - 1 → IsOk result }
    {
        if self.posted == u64::MAX {
            return Err(call);
        }
        match self.calls.push(call) {
            Ok(()) => {
                self.posted += 1;
                Ok(())
            }
            Err(PushError::Full(back)) => Err(back),
        }
    }

    /// Takes the next reply, if it has come. After 2^64 - 1 replies this returns `None`.
    pub fn take(&mut self) -> Option<O::Reply>
        ensures line { SameLine self.old self.new }
        ensures posted { posted_calls self.new ≡ posted_calls self.old }
        ensures some { IfSome result (λ r. taken_replies self.new ≡ taken_replies self.old ++ r ∷ []) }
        ensures none { IfNone result (taken_replies self.new ≡ taken_replies self.old) }
        ensures known { 0 < length (known_items self.old.replies) → length (taken_replies self.old) < 2 ^ 64 - 1 → IsSome result }
    {
        if self.taken == u64::MAX {
            return None;
        }
        match self.replies.pop() {
            Ok(reply) => {
                self.taken += 1;
                Some(reply)
            }
            Err(_) => None,
        }
    }

    /// Closes the line for further calls, so that the desk can be closed.
    pub fn finish(self) -> LineEnd<O>
        ensures { result ≡ self }
    {
        LineEnd { line: self }
    }
}

impl<O: Object> LineEnd<O> {
    ghost use Rattle.std.specs.Prelude.{◌≡◌, ◌∷◌, ◌++◌, [], ◌<◌, ◌-◌, ◌^◌, length, IfSome, IfNone, IsSome};
    ghost use Rattle.rtrb.specs.Ring.{known_items};
    ghost use Rattle.call_history.specs.RingLines.{posted_calls, taken_replies, SameLine};

    /// Takes the next reply, if it has come. After 2^64 - 1 replies this returns `None`.
    pub fn take(&mut self) -> Option<O::Reply>
        ensures line { SameLine self.old self.new }
        ensures posted { posted_calls self.new ≡ posted_calls self.old }
        ensures some { IfSome result (λ r. taken_replies self.new ≡ taken_replies self.old ++ r ∷ []) }
        ensures none { IfNone result (taken_replies self.new ≡ taken_replies self.old) }
        ensures known { 0 < length (known_items self.old.replies) → length (taken_replies self.old) < 2 ^ 64 - 1 → IsSome result }
    {
        self.line.take()
    }
}

impl<O: Object> Numbered for LineEnd<O> {
    ghost number = { λ end. end.number };

    fn number(&self) -> u32 {
        self.line.number()
    }
}
