//! Players over the network. Each message has a separate connection with one deadline. A player waits between two messages.
//!
//! `Sockets` makes players that are reached over HTTP.
#![tactic(auto)]

mod answer_budget;
mod beside;
mod contacting;
mod deadline;
mod host_addresses;
mod lookup;
mod pending_lookups;
mod routes;
mod shortage;
mod signal;
mod socket_player;

pub use beside::Beside;
pub use contacting::{ContactFault, Explains, contact};
pub use lookup::{Found, HostQuery, Resolves, make_beside};
pub use pending_lookups::{PendingLookups, lookup_descriptors};
pub use routes::Routes;
pub use shortage::shortage_of;
pub use signal::{Pace, RoundSignal, time_since};
pub use socket_player::{SocketPlayer, Sockets, answer_of};
