//! A desk of matches as a service. Clients send calls over connections; while a connection lasts, it has one line of
//! the desk.
//!
//! `Listener` accepts the connections, `converse` answers one client, and `serve_desk` runs the whole service and closes the desk. Free
//! functions take the runtime first, and then the allocator.
#![tactic(auto)]

mod connections;
mod conversation;
mod ending;
mod listener;
mod rows;
mod service;

pub use connections::Connections;
pub use conversation::converse;
pub use ending::Ending;
pub use listener::{Listener, Listens};
pub use rows::Serving;
pub use service::{ServiceSurroundings, serve_desk};
