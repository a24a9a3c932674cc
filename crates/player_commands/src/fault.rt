//! Why `info` or `abort` failed.
ghost use Rattle.std.specs.Prelude.{◌≡◌};
ghost use Rattle.player_commands.specs.Faults.{contact_fault};
ghost use Rattle.player_commands.specs.declared.fault.CommandFault.TheVariants as faults;

use match_plans::Shortage;
use network_players::ContactFault;
use std::alloc::AllocError;
use whole_streams::WriteFault;

/// Why `info` or `abort` failed.
#[derive(Clone, Copy)]
pub enum CommandFault {
    /// The match's id is invalid. No message was sent.
    BadId,
    /// A player cannot be reached, or its answer cannot be read.
    NoAnswer,
    /// The referee lacked this resource, so it did not send a message, sent it too late, or lost the answer. The player
    /// did nothing wrong.
    NotSent(Shortage),
    /// The output cannot be written.
    WriteFault,
    /// Out of memory.
    Memory,
}

impl From<AllocError> for CommandFault {
    ghost from_gives = { λ _ given. given ≡ faults.Memory };

    fn from(_: AllocError) -> CommandFault {
        CommandFault::Memory
    }
}

impl From<WriteFault> for CommandFault {
    ghost from_gives = { λ _ given. given ≡ faults.WriteFault };

    fn from(_: WriteFault) -> CommandFault {
        CommandFault::WriteFault
    }
}

/// The error of a command after a message to a player failed.
pub fn contact_fault(fault: ContactFault) -> CommandFault
    ensures { result ≡ contact_fault fault }
{
    match fault {
        ContactFault::Shortage(Shortage::Memory) => CommandFault::Memory,
        ContactFault::Shortage(shortage) => CommandFault::NotSent(shortage),
        _ => CommandFault::NoAnswer,
    }
}
