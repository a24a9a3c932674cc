//! The trait of objects that take calls.
ghost use Rattle.std.specs.Prelude.{◌≡◌, IfOk, OnOk, OnErr};

use std::alloc::{AllocError, Global};

/// A value that takes calls and replies to them. The value and a call determine the reply and the value after the call, so
/// repeating a list of calls gives the same replies.
///
/// If the object refuses a call, the refusal is a reply. These methods fail only if an allocation is refused.
pub trait Object {
    type Call: Drop;

    type Reply: Drop;

    /// The reply to a call at this value.
    ghost reply: { Self → Self.Call → Self.Reply };

    /// The value after a call.
    ghost after: { Self → Self.Call → Self };

    /// The value before all calls.
    ghost opening: { Self → Self };

    /// The reply that the call would get now. This does not make the call.
    fn answer(&self, alloc: Global, call: &Self::Call) -> Result<Self::Reply, AllocError>
        ensures { IfOk result (λ r. r ≡ reply self.now call.now) };

    /// Makes the call.
    fn apply(&mut self, alloc: Global, call: &Self::Call) -> Result<(), AllocError>
        ensures ok { OnOk result (self.new ≡ after self.old call.now) }
        ensures err { OnErr result (self.new ≡ self.old) };

    /// Copies the call.
    fn copy_call(alloc: Global, call: &Self::Call) -> Result<Self::Call, AllocError>
        ensures { IfOk result (λ c. c ≡ call.now) };

    /// No call changes the opening.
    ghost keeps_opening: { (object : Self) (call : Self.Call) → opening (after object call) ≡ opening object };

    ghost opening_is_own: { (object : Self) → opening (opening object) ≡ opening object };
}
