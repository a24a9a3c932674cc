//! A desk over rings, with the line of the thread that opened it.
ghost use Rattle.std.specs.Prelude.{◌≡◌, ◌∷◌, ◌++◌, [], IfOk, OnOk, IsErrOf, MatchResult, length};
ghost use Rattle.call_history.specs.Faults.{ask_fault};
ghost use Rattle.call_history.specs.RingLines.{posted_calls, taken_replies, SameLine, SamePorts};

use call_history::{AskFault, DeskFault, Object, RingDesk, RingLine};

/// A desk over rings, and the line of the thread that opened it.
#[derive(Drop)]
pub struct DeskHolder<O: Object> {
    pub desk: RingDesk<O>,
    pub line: RingLine<O>,
}

/// Makes a call over the holder's line. If the desk cannot make the call, the desk keeps it for its next round.
pub fn ask_own<O: Object>(holder: &mut DeskHolder<O>, call: O::Call) -> Result<O::Reply, AskFault>
    ensures line { SameLine holder.old.line holder.new.line }
    ensures ports { SamePorts holder.old.desk.ports holder.new.desk.ports }
    ensures opening { O.opening holder.new.desk.journal.object ≡ O.opening holder.old.desk.journal.object }
    ensures call { OnOk result (posted_calls holder.new.line ≡ posted_calls holder.old.line ++ call ∷ []) }
    ensures reply { IfOk result (λ r. taken_replies holder.new.line ≡ taken_replies holder.old.line ++ r ∷ []) }
    ensures full { IsErrOf result AskFault.Full → length holder.new.desk.journal.history ≡ holder.new.desk.journal.most }
{
    if holder.line.post(call).is_err() {
        return Err(AskFault::Stalled);
    }
    // A round begins with the first line, so one round serves that line even if it stops at a later one.
    let served = holder.desk.round();
    match holder.line.take() {
        Some(reply) => Ok(reply),
        None => Err(fault_of(served)),
    }
}

/// The error for a round that brought no reply.
fn fault_of(served: Result<u64, DeskFault>) -> AskFault
    ensures { MatchResult served (λ _. result ≡ AskFault.Stalled) (λ fault. result ≡ ask_fault fault.cause) }
{
    match served {
        Ok(_) => AskFault::Stalled,
        Err(fault) => AskFault::from(fault.cause),
    }
}
