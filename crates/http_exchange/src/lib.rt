//! HTTP exchanges over any stream, each with one request and one reply.
//!
//! A player is an HTTP server. `exchange` sends it a request and reads its reply; `take_request` and `give_reply` are
//! the player's side. A body is accepted only if it is complete and within the limits, and if either one length or the
//! end of the stream says where it ends. Every other outcome has a separate error.
#![tactic(auto)]

mod body_length;
mod exchanging;
mod head;
mod http_text;
pub mod laws;
mod look;
mod numeral;
mod received;
mod receiving;
mod sending;
mod wire_fault;

pub use exchanging::{exchange, exchange_shared, give_reply, take_request};
pub use head::HeadPart;
pub use received::Received;
pub use wire_fault::WireFault;
