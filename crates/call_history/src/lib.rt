//! Objects that reply to calls, the history of their calls, and desks that let many threads share an object behind a lock
//! or over rings.
//!
//! One thread can replay the history: each stored reply is the reply of the plain object at that point, and making the
//! calls in order leads to the object.
#![tactic(auto)]

mod bell;
mod comparing;
mod gathering;
mod journal;
pub mod laws;
mod line;
mod lock;
mod lock_wire;
mod moment;
mod object;
mod pause;
mod port;
mod ring_desk;
mod ring_line;
mod ring_opening;
mod ring_wire;
mod serving;
mod wire;

pub use bell::Bell;
pub use journal::{CallFault, Entry, Journal, MAX_ENTRIES};
pub use line::LockLine;
pub use lock::{CloseFault, Closed, LockDesk, MAX_LINES, Unclosed, open_lock};
pub use lock_wire::LockWire;
pub use moment::back_off;
pub use object::Object;
pub use pause::Pause;
pub use port::Port;
pub use ring_desk::{DeskFault, RingCloseFault, RingDesk, RingUnclosed};
pub use ring_line::{LineEnd, RingLine};
pub use ring_opening::{MAX_ROOM, last_line, open_rings};
pub use ring_wire::RingWire;
pub use wire::{AskFault, Wire};
