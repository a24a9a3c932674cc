//! The rounds of a desk over rings.
ghost use Rattle.std.specs.Prelude.{◌≡◌, ◌≤◌, ◌↔◌, length, IfOk, IfErr, OnErr, MatchResult, MatchBool, IsSome, IsFalse};
ghost use Rattle.call_history.specs.Limits.{max_lines};
ghost use Rattle.call_history.specs.Parts.{part};
ghost use Rattle.call_history.specs.RingLines.{SamePort, SamePorts};
ghost use Rattle.call_history.specs.Rounds.{Serves, ServesLines, IsPassedBy, Gains, GainsOne, Visits, StopsAt};

use crate::journal::{CallFault, Journal};
use crate::object::Object;
use crate::port::Port;
use crate::ring_desk::DeskFault;

/// Serves at most one call of a line: the kept call or, if there is none, the next call that has arrived. Skips a line that
/// has no free slot for a reply.
fn serve<O: Object>(
    journal: &mut Journal<O>,
    port: &mut Port<O::Call, O::Reply>,
    line: u32,
) -> Result<bool, CallFault>
    requires serves { Serves (part line journal.old.history) port.old }
    requires within { length journal.old.history ≤ journal.old.most }
    ensures serves { Serves (part line journal.new.history) port.new }
    ensures same { SamePort port.old port.new }
    ensures most { journal.new.most ≡ journal.old.most }
    ensures within { length journal.new.history ≤ journal.new.most }
    ensures opening { O.opening journal.new.object ≡ O.opening journal.old.object }
    ensures gains { MatchResult result
        (λ did. MatchBool did (GainsOne line journal.old.history journal.new.history) (journal.new.history ≡ journal.old.history))
        (λ _. journal.new.history ≡ journal.old.history) }
    ensures passed { IfOk result (λ did. IsFalse did → IsPassedBy port.old port.new) }
    ensures kept { OnErr result (IsSome port.new.kept) }
    ensures fault { IfErr result (λ fault. (fault ≡ CallFault.Full) ↔ (length journal.new.history ≡ journal.new.most)) }
{
    if port.replies.is_full() {
        return Ok(false);
    }
    let call = match port.kept.take() {
        Some(call) => call,
        None => match port.calls.pop() {
            Ok(call) => call,
            Err(_) => return Ok(false),
        },
    };
    match journal.call(line, &call) {
        Ok(reply) => {
            port.replies.push_reserved(reply);
            Ok(true)
        }
        Err(fault) => {
            port.kept = Some(call);
            Err(fault)
        }
    }
}

/// Visits the lines in the order of their numbers, and serves at most one call of each.
pub(crate) fn serve_round<O: Object>(
    journal: &mut Journal<O>,
    ports: &mut Vec<Port<O::Call, O::Reply>>,
) -> Result<u64, DeskFault>
    requires serves { ServesLines journal.old.history ports.old.items }
    requires lines { length ports.old.items ≤ max_lines }
    requires within { length journal.old.history ≤ journal.old.most }
    ensures serves { ServesLines journal.new.history ports.new.items }
    ensures same { SamePorts ports.old.items ports.new.items }
    ensures most { journal.new.most ≡ journal.old.most }
    ensures within { length journal.new.history ≤ journal.new.most }
    ensures opening { O.opening journal.new.object ≡ O.opening journal.old.object }
    ensures gains { MatchResult result
        (λ served. Gains journal.old.history journal.new.history (length ports.old.items) served)
        (λ fault. Gains journal.old.history journal.new.history fault.line fault.served) }
    ensures visits { MatchResult result
        (λ _. Visits journal.old.history journal.new.history ports.old.items ports.new.items (length ports.old.items))
        (λ fault. Visits journal.old.history journal.new.history ports.old.items ports.new.items fault.line) }
    ensures fault { IfErr result (λ fault. StopsAt fault.line (fault.cause ≡ CallFault.Full) (record { journal = journal.new; ports = ports.new.items })) }
{
    let mut served = 0;
    for i in 0..ports.len() {
        let line = i as u32;
        let port = &mut ports[i];
        let did = match serve(journal, port, line) {
            Ok(did) => did,
            Err(cause) => {
                return Err(DeskFault {
                    line,
                    cause,
                    served,
                });
            }
        };
        if did {
            served += 1;
        }
    }
    Ok(served)
}
