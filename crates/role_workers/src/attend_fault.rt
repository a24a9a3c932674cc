//! Why a worker stops attending its role.
ghost use Rattle.std.specs.Prelude.{◌≡◌};
ghost use Rattle.role_workers.specs.declared.attend_fault.AttendFault.TheVariants.{Memory};
ghost use Rattle.role_workers.specs.AttendFaults.{attend_fault};

use call_history::AskFault;
use desk_calls::Refusal;
use std::alloc::AllocError;
use thiserror::Error;

/// Why a worker stops attending its role before the match is over.
#[derive(Clone, Copy, Debug, PartialEq, Eq, Error)]
pub enum AttendFault {
    /// The desk refused a call, for this reason. A worker ignores the refusal of an answer that is late, repeated, or
    /// after the end.
    #[error("refused: {0}")]
    Refused(Refusal),
    /// No tries are left, the wire gave up, or the reply does not fit the call.
    #[error("no reply came")]
    Stalled,
    /// The desk's history is full.
    #[error("the history is full")]
    Full,
    /// Out of memory.
    #[error("out of memory")]
    Memory,
}

impl From<AskFault> for AttendFault {
    ghost from_gives = { λ fault passed. passed ≡ attend_fault fault };

    fn from(fault: AskFault) -> AttendFault {
        match fault {
            AskFault::Full => AttendFault::Full,
            AskFault::Memory => AttendFault::Memory,
            AskFault::Stalled => AttendFault::Stalled,
        }
    }
}

impl From<AllocError> for AttendFault {
    ghost from_gives = { λ _ fault. fault ≡ Memory };

    fn from(_: AllocError) -> AttendFault {
        AttendFault::Memory
    }
}
