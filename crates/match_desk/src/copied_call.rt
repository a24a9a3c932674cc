ghost use Rattle.std.specs.Prelude.{◌≡◌, IfOk};

use crate::asked_setup::AskedSetup;
use desk_calls::Call;
use std::alloc::{AllocError, Global};

/// Copies a call.
pub fn copied_call(alloc: Global, call: &Call) -> Result<Call, AllocError>
    ensures { IfOk result (λ copy. copy ≡ call.now) }
{
    Ok(match call {
        Call::Open { .. } => AskedSetup::of(call).to_call(alloc)?,
        Call::Next { id, role } => Call::Next {
            id: id.copy(alloc)?,
            role: *role,
        },
        Call::Submit {
            id,
            role,
            round,
            text,
        } => Call::Submit {
            id: id.copy(alloc)?,
            role: *role,
            round: *round,
            text: text.copy(alloc)?,
        },
        Call::Miss {
            id,
            role,
            round,
            broken,
        } => Call::Miss {
            id: id.copy(alloc)?,
            role: *role,
            round: *round,
            broken: *broken,
        },
        Call::Query { id } => Call::Query {
            id: id.copy(alloc)?,
        },
        Call::Abort { id } => Call::Abort {
            id: id.copy(alloc)?,
        },
    })
}
