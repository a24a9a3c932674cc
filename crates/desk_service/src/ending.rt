//! How conversations end.
ghost use Rattle.std.specs.Prelude.{◌≡◌};
ghost use Rattle.desk_service.specs.Rows.{is_stopped, last_row};

use call_history::CallFault;
use std::alloc::AllocError;

/// How a conversation ended.
#[derive(Clone, Copy)]
pub enum Ending {
    /// The client has stopped sending, and has received all its replies.
    Left,
    /// A read or a write failed.
    Broken,
    /// A row is longer than the limit.
    TooLong,
    /// The history is full.
    Full,
    /// Out of memory.
    Memory,
}

impl Ending {
    /// Whether the service, not the client, ended the conversation.
    pub(crate) fn is_stopped(self) -> bool
        ensures { result ≡ is_stopped self }
    {
        matches!(self, Ending::TooLong | Ending::Full | Ending::Memory)
    }

    /// The last row that the client gets if the service ends the conversation.
    pub(crate) fn last_row(self) -> &'static [u8]
        ensures { result.now ≡ last_row self }
    {
        match self {
            Ending::Left | Ending::Broken => b"",
            Ending::TooLong => b"toolong\n",
            Ending::Full => b"full\n",
            Ending::Memory => b"memory\n",
        }
    }

    /// The report about a conversation that the service ended.
    pub(crate) fn words(self) -> &'static str {
        match self {
            Ending::Full => "ggp_manager: a client was disconnected: the history is full",
            Ending::Memory => "ggp_manager: a client was disconnected: want of memory",
            _ => "ggp_manager: a client was disconnected: a row has more than 1048576 bytes",
        }
    }
}

impl From<CallFault> for Ending {
    ghost use Rattle.std.specs.Prelude.{◌≡◌};
    ghost use Rattle.desk_service.specs.Rows.{fault_ending};

    ghost from_gives = { λ fault ending. ending ≡ fault_ending fault };

    fn from(fault: CallFault) -> Ending {
        match fault {
            CallFault::Full => Ending::Full,
            CallFault::Memory => Ending::Memory,
        }
    }
}

impl From<AllocError> for Ending {
    ghost use Rattle.std.specs.Prelude.{◌≡◌};
    ghost use Rattle.desk_service.specs.declared.ending.Ending.TheVariants.{Memory};

    ghost from_gives = { λ _ ending. ending ≡ Memory };

    fn from(_: AllocError) -> Ending {
        Ending::Memory
    }
}
