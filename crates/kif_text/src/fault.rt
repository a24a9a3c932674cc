//! Why the reader refuses a text.
ghost use Rattle.std.specs.Prelude.{◌≡◌};
ghost use Rattle.kif_text.specs.declared.fault.KifFault.TheVariants.{Memory};

use std::alloc::{AllocError, AllocFailed};
use thiserror::Error;

/// Why the reader refuses a text. Offsets count the bytes of the text from 0.
///
/// `TooLong` takes precedence over all other errors. Among the others, the reader reports the one with the lowest offset. It
/// finds `Unclosed` and `Nothing` at the end of the text, so it reports them only if there is no other error.
#[derive(Clone, Copy, Debug, PartialEq, Eq, Error)]
pub enum KifFault {
    /// The byte at this offset is outside comments, and is not white space, a parenthesis or an atom byte.
    #[error("the byte at {0} is not valid in KIF")]
    BadByte(usize),
    /// The parenthesis at this offset closes a list, but none is open.
    #[error("the parenthesis at {0} closes no list")]
    Unopened(usize),
    /// The parenthesis at this offset would open a list inside 64 nested lists.
    #[error("the list at {0} is nested too deeply")]
    TooDeep(usize),
    /// No parenthesis closes the list that begins at this offset. If several lists are open at the end of the text, this
    /// is the innermost one.
    #[error("the list at {0} is not closed")]
    Unclosed(usize),
    /// One expression was expected, but the text has none.
    #[error("there is no expression")]
    Nothing,
    /// One expression was expected, but a second one begins at this offset.
    #[error("a second expression begins at {0}")]
    More(usize),
    /// The text has more bytes than the limit.
    #[error("the text is too long")]
    TooLong,
    /// Out of memory.
    #[error("out of memory")]
    Memory,
}

impl From<AllocError> for KifFault {
    ghost from_gives = { λ _ fault. fault ≡ Memory };

    fn from(_: AllocError) -> KifFault {
        KifFault::Memory
    }
}

impl<T: Drop> From<AllocFailed<T>> for KifFault {
    ghost from_gives = { λ _ fault. fault ≡ Memory };

    fn from(_: AllocFailed<T>) -> KifFault {
        KifFault::Memory
    }
}
