//! The trait of a caller's connection to a desk, behind a lock or over rings.
ghost use Rattle.std.specs.Prelude.{◌≡◌, [], ◌∷◌, List, Option, ◌⊎◌, IfOk, OnOk, OnErr};
ghost use Rattle.call_history.specs.Told.{told_with};
ghost use Rattle.call_history.specs.Faults.{ask_fault};

use crate::journal::CallFault;
use std::error::Error;
use std::fmt;

/// Why a call got no reply.
#[derive(Clone, Copy, Debug, PartialEq, Eq)]
pub enum AskFault {
    /// The history is full: it has as many entries as its journal accepts.
    Full,
    /// Out of memory.
    Memory,
    /// The wire gave up waiting. The call may or may not have been made.
    Stalled,
}

impl fmt::Display for AskFault {
    fn fmt<W: fmt::Write>(&self, f: &mut fmt::Formatter<W>) -> fmt::Result {
        f.write_str(match *self {
            AskFault::Full => "the history is full",
            AskFault::Memory => "out of memory",
            AskFault::Stalled => "no reply came",
        })
    }
}

impl Error for AskFault {}

impl From<CallFault> for AskFault {
    ghost from_gives = { λ fault passed. passed ≡ ask_fault fault };

    fn from(fault: CallFault) -> AskFault {
        match fault {
            CallFault::Full => AskFault::Full,
            CallFault::Memory => AskFault::Memory,
        }
    }
}

/// A caller's connection to a desk in the same process. The caller makes calls one after another, and takes the reply to
/// each. A wire is not a network connection. It always belongs to the same line of a desk.
///
/// A wire may show its calls and its replies to contracts. A wire over a lock shows neither.
pub trait Wire {
    type Call: Drop;

    type Reply: Drop;

    /// The calls that the wire made, in order, or `None` if the wire does not show them.
    ghost calls: { Self → Option (List Self.Call) };

    /// The replies that the wire took, in order, or `None` if the wire does not show them.
    ghost replies: { Self → Option (List Self.Reply) };

    /// The two wires belong to the same line.
    ghost same_line: { Self → Self → Type 0 };

    /// Makes a call and takes its reply. After an error no reply was taken, but the call may have been made.
    fn ask(&mut self, call: Self::Call) -> Result<Self::Reply, AskFault>
        ensures line { same_line self.old self.new }
        ensures call { OnOk result (calls self.new ≡ told_with (calls self.old) (call ∷ [])) }
        ensures reply { IfOk result (λ r. replies self.new ≡ told_with (replies self.old) (r ∷ [])) }
        ensures maybe_call { OnErr result ((calls self.new ≡ calls self.old) ⊎ (calls self.new ≡ told_with (calls self.old) (call ∷ []))) }
        ensures no_reply { OnErr result (replies self.new ≡ replies self.old) };

    ghost same_line_refl: { (wire : Self) → same_line wire wire };

    ghost same_line_trans: { (a b c : Self) → same_line a b → same_line b c → same_line a c };
}
