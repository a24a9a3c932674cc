//! A wire that serves the desk while it waits for a reply.
ghost use Rattle.std.specs.Prelude.{◌≡◌, ◌⊎◌, ◌∷◌, ◌++◌, [], Some, IfOk, IfErr, IfSome, IfNone, OnOk, OnErr, IsErr, IsTrue, IsFalse};
ghost use Rattle.call_history.specs.Told.{told_with};
ghost use Rattle.call_history.specs.RingLines.{posted_calls, taken_replies, SameLine};

use crate::shared_desk::{DeskBrand, SharedDesk};
use call_history::{AskFault, Object, RingLine, Wire, back_off};
use desk_calls::{Call, Reply};

/// A wire gives up after this many checks for a reply.
const TURNS: u64 = 1_000_000_000;

/// A line of a desk that any thread can serve. The line has at most one unfinished call, so its ring always has a slot
/// for the next call.
#[derive(Drop)]
pub struct ServedWire<'a, O: Object<Call = Call, Reply = Reply>, N: DeskBrand<O>> {
    line: RingLine<O>,
    desk: &'a SharedDesk<O, N>,
    has_stalled: bool,
}

impl<'a, O: Object<Call = Call, Reply = Reply>, N: DeskBrand<O>> ServedWire<'a, O, N> {
    /// Creates a wire that makes the line's calls on its desk.
    pub fn new(line: RingLine<O>, desk: &'a SharedDesk<O, N>) -> ServedWire<'a, O, N>
        ensures line { result.line ≡ line }
        ensures going { IsFalse result.has_stalled }
    {
        ServedWire {
            line,
            desk,
            has_stalled: false,
        }
    }

    /// Gives the line back.
    pub fn end(self) -> RingLine<O>
        ensures { result ≡ self.entry.line }
    {
        self.line
    }
}

impl<'a, O: Object<Call = Call, Reply = Reply>, N: DeskBrand<O>> Wire for ServedWire<'a, O, N> {
    ghost use Rattle.std.proofs.Common.{rules};

    type Call = Call;

    type Reply = Reply;

    ghost calls = { λ w. Some (posted_calls w.line) };

    ghost replies = { λ w. Some (taken_replies w.line) };

    ghost same_line = { λ v w. SameLine v.line w.line };

    /// Posts the call and takes one reply. The reply belongs to this call if the line had taken a reply to each earlier
    /// call. The wire stalls after `TURNS` checks without a reply, or if the desk has stopped. A stalled wire does
    /// nothing more, but a call that it has posted stays posted. If the desk has stopped because memory ran out, the
    /// error is `Memory`.
    fn ask(&mut self, call: Call) -> Result<Reply, AskFault>
        ensures line { SameLine self.old.line self.new.line }
        ensures call { OnOk result (Some (posted_calls self.new.line) ≡ told_with (Some (posted_calls self.old.line)) (call ∷ [])) }
        ensures reply { IfOk result (λ r. Some (taken_replies self.new.line) ≡ told_with (Some (taken_replies self.old.line)) (r ∷ [])) }
        ensures maybe_call { OnErr result ((Some (posted_calls self.new.line) ≡ Some (posted_calls self.old.line))
            ⊎ (Some (posted_calls self.new.line) ≡ told_with (Some (posted_calls self.old.line)) (call ∷ []))) }
        ensures no_reply { OnErr result (Some (taken_replies self.new.line) ≡ Some (taken_replies self.old.line)) }

        ensures fault { IfErr result (λ fault. ((fault ≡ AskFault.Stalled) ⊎ (fault ≡ AskFault.Memory)) × IsTrue self.new.has_stalled) }
        ensures going { OnOk result (IsFalse self.new.has_stalled) }
        ensures stays { IsTrue self.old.has_stalled → IsErr result × (self.new ≡ self.old) }
    {
        if self.has_stalled {
            return Err(AskFault::Stalled);
        }
        // The wire counts as stalled until the reply has come.
        self.has_stalled = true;
        if self.line.post(call).is_err() {
            return Err(AskFault::Stalled);
        }
        let Some(reply) = take_served(&mut self.line, self.desk) else {
            return Err(if self.desk.is_short() {
                AskFault::Memory
            } else {
                AskFault::Stalled
            });
        };
        self.has_stalled = false;
        Ok(reply)
    }

    ghost same_line_refl = { λ w. Prim.search rules };

    ghost same_line_trans = { λ a b c ab bc. Prim.search rules };
}

/// Takes the reply that the line waits for. Until the reply comes, the thread serves rounds, or waits while another
/// thread serves one. The thread gives up after `TURNS` checks, or when the desk has stopped.
fn take_served<O: Object<Call = Call, Reply = Reply>, N: DeskBrand<O>>(
    line: &mut RingLine<O>,
    desk: &SharedDesk<O, N>,
) -> Option<Reply>
    ensures line { SameLine line.old line.new }
    ensures posted { posted_calls line.new ≡ posted_calls line.old }
    ensures some { IfSome result (λ r. taken_replies line.new ≡ taken_replies line.old ++ r ∷ []) }
    ensures none { IfNone result (taken_replies line.new ≡ taken_replies line.old) }
{
    for tried in 0..TURNS {
        // The desk sends its replies before it stops, so the last check comes after the stop.
        let is_last = desk.has_stopped();
        if let Some(reply) = line.take() {
            return Some(reply);
        }
        if is_last {
            return None;
        }
        if !desk.serve() {
            back_off(tried);
        }
    }
    None
}
