//! A wire over rings.
ghost use Rattle.std.specs.Prelude.{◌≡◌, ◌⊎◌, ◌∷◌, ◌++◌, ◌<◌, [], IfOk, IfErr, IfSome, IfNone, OnOk, OnErr, IsErr, IsTrue, IsFalse, MatchBool};
ghost use Rattle.call_history.specs.RingLines.{posted_calls, taken_replies, SameLine};

use crate::bell::Bell;
use crate::moment::back_off;
use crate::object::Object;
use crate::ring_line::RingLine;
use crate::wire::{AskFault, Wire};
use std::marker::Model;
use std::sync::Arc;

/// A line of a desk over rings, and the number of tries for each call. Contracts do not see the bell.
#[derive(Drop)]
pub struct RingWire<O: Object> {
    line: RingLine<O>,
    tries: u64,
    bell: Option<Arc<Bell>>,
    has_stalled: bool,
}

impl<O: Object> Model for RingWire<O> {
    ghost use Rattle.call_history.specs.RingLines.{RingWireValue};

    ghost Value = { RingWireValue O.Call O.Reply };

    ghost view = { λ w. record { line = w.line; tries = w.tries; has_stalled = w.has_stalled } };
}

impl<O: Object> RingWire<O> {
    /// Creates a wire to a desk that never sleeps. For each call the wire tries at most `tries` times to post the call
    /// and to take the reply. If the reply has not come by then, the wire stalls.
    pub fn new(line: RingLine<O>, tries: u64) -> RingWire<O>
        ensures line { result.line ≡ line }
        ensures tries { result.tries ≡ tries }
        ensures going { IsFalse result.has_stalled }
    {
        RingWire {
            line,
            tries,
            bell: None,
            has_stalled: false,
        }
    }

    /// Creates a wire to a desk that may sleep: after each post the wire rings this bell. The wire also stalls when the
    /// desk makes no further calls.
    pub fn with_bell(line: RingLine<O>, tries: u64, bell: Arc<Bell>) -> RingWire<O>
        ensures line { result.line ≡ line }
        ensures tries { result.tries ≡ tries }
        ensures going { IsFalse result.has_stalled }
    {
        let mut wire = RingWire::new(line, tries);
        wire.bell = Some(bell);
        wire
    }

    /// Returns the line.
    pub fn end(self) -> RingLine<O>
        ensures { result ≡ self.line }
    {
        self.line
    }
}

impl<O: Object> Wire for RingWire<O> {
    ghost use Rattle.std.specs.Prelude.{Some};
    ghost use Rattle.std.proofs.Common.{rules};

    type Call = O::Call;

    type Reply = O::Reply;

    ghost calls = { λ w. Some (posted_calls w.line) };

    ghost replies = { λ w. Some (taken_replies w.line) };

    ghost same_line = { λ v w. SameLine v.line w.line };

    /// Posts the call and takes one reply. The returned reply is the reply to this call if the line had taken a reply to
    /// each earlier call. The wire stalls if no reply comes within its tries, or if the desk has stopped. A stalled wire
    /// does nothing more, but a call that it has posted stays posted.
    fn ask(&mut self, call: O::Call) -> Result<O::Reply, AskFault>
        ensures line { SameLine self.old.line self.new.line }
        ensures tries { self.new.tries ≡ self.old.tries }
        ensures call { OnOk result (posted_calls self.new.line ≡ posted_calls self.old.line ++ call ∷ []) }
        ensures reply { IfOk result (λ r. taken_replies self.new.line ≡ taken_replies self.old.line ++ r ∷ []) }
        ensures maybe_call { OnErr result ((posted_calls self.new.line ≡ posted_calls self.old.line)
            ⊎ (posted_calls self.new.line ≡ posted_calls self.old.line ++ call ∷ [])) }
        ensures no_reply { OnErr result (taken_replies self.new.line ≡ taken_replies self.old.line) }

        ensures fault { IfErr result (λ fault. (fault ≡ AskFault.Stalled) × IsTrue self.new.has_stalled) }
        ensures going { OnOk result (IsFalse self.new.has_stalled) }
        ensures stays { IsTrue self.old.has_stalled → IsErr result × (self.new ≡ self.old) }
    {
        if self.has_stalled {
            return Err(AskFault::Stalled);
        }
        // The wire counts as stalled until the reply has come.
        self.has_stalled = true;
        let mut left = self.tries;
        if !post_within(&mut self.line, call, &mut left, &self.bell) {
            return Err(AskFault::Stalled);
        }
        ring(&self.bell);
        let Some(reply) = take_within(&mut self.line, &mut left, &self.bell) else {
            return Err(AskFault::Stalled);
        };
        self.has_stalled = false;
        Ok(reply)
    }

    ghost same_line_refl = { λ w. Prim.search rules };

    ghost same_line_trans = { λ a b c ab bc. Prim.search rules };
}

fn ring(bell: &Option<Arc<Bell>>) {
    if let Some(bell) = bell {
        bell.ring();
    }
}

/// Whether the desk has signalled that it makes no further calls.
fn has_stopped(bell: &Option<Arc<Bell>>) -> bool
    ensures { IfNone bell.now (IsFalse result) }
{
    match bell {
        Some(bell) => bell.has_stopped(),
        None => false,
    }
}

/// Tries to post a call until no tries are `left` or the desk stops. Returns whether the call is posted.
fn post_within<O: Object>(
    line: &mut RingLine<O>,
    call: O::Call,
    left: &mut u64,
    bell: &Option<Arc<Bell>>,
) -> bool
    ensures line { SameLine line.old line.new }
    ensures taken { taken_replies line.new ≡ taken_replies line.old }
    ensures posted { MatchBool result
        ((posted_calls line.new ≡ posted_calls line.old ++ call ∷ []) × (left.new < left.old))
        (posted_calls line.new ≡ posted_calls line.old) }

    // Without a bell, the function gives up only after the last try.
    ensures gives_up { IfNone bell.now (IsFalse result → left.new ≡ 0) }
{
    let mut call = call;
    for tried in 0..*left {
        *left -= 1;
        match line.post(call) {
            Ok(()) => return true,
            Err(back) => call = back,
        }
        if has_stopped(bell) {
            return false;
        }
        back_off(tried);
    }
    false
}

/// Tries to take a reply until no tries are `left` or the desk stops.
fn take_within<O: Object>(
    line: &mut RingLine<O>,
    left: &mut u64,
    bell: &Option<Arc<Bell>>,
) -> Option<O::Reply>
    ensures line { SameLine line.old line.new }
    ensures posted { posted_calls line.new ≡ posted_calls line.old }
    ensures some { IfSome result (λ r. taken_replies line.new ≡ taken_replies line.old ++ r ∷ []) }
    ensures none { IfNone result (taken_replies line.new ≡ taken_replies line.old) }

    // Without a bell, the function gives up only after the last try.
    ensures gives_up { IfNone bell.now (IfNone result (left.new ≡ 0)) }
{
    for tried in 0..*left {
        *left -= 1;
        // The desk sends all replies before it stops, so one more try after the stop finds any reply.
        let is_last = has_stopped(bell);
        if let Some(reply) = line.take() {
            return Some(reply);
        }
        if is_last {
            return None;
        }
        back_off(tried);
    }
    None
}
