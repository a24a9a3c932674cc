//! Re-exports, under one path, everything that a match sends and writes: its messages, their HTTP exchanges, its record and
//! the check of the record. The program itself uses `match_messages`, `http_exchange`, `match_record` and `record_check`
//! directly.
#![tactic(auto)]

pub mod laws;

pub use http_exchange::{WireFault, exchange, give_reply, take_request};
pub use match_messages::{
    Brief, Info, Message, MessageFault, info_message, message, read_info, read_message,
};
pub use match_record::{Key, VerifyFault, phase_text, record_json};
pub use record_check::verify;
