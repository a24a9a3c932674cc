//! Reports on running matches: each message with its answer, or the progress of the matches.
//!
//! `Logging` wraps another `Reach` and logs the messages of its players. `Notices` stores the reports until a thread
//! writes them, so that no match waits for a reader. `StatusStream` writes messages, with a status line below them.
#![tactic(auto)]

mod events;
mod logging;
mod notices;
mod shown_text;
mod status;

pub use events::{Event, Json};
pub use logging::{LoggedPlayer, Logging};
pub use notices::{Notices, ReportStream};
pub use shown_text::Shown;
pub use status::{ClearedOutput, Progress, StatusStream, WriterBrand};
