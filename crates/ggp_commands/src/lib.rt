//! The commands of the program `ggp_manager`: the commands of `game_commands`; `run`, `season` and `check`, which play
//! matches; and `info` and `abort`, which send messages to single players.
//!
//! `command` runs a command line over any streams, runtime and players; the program passes its own. Free functions take
//! the allocator first, after a handle for threads, waiting or the network.
#![tactic(auto)]

mod commands;
mod descriptors;
mod explaining;
mod faults;
mod loaded_game;
mod log_target;
mod matches;
mod records_file;
mod serving;
mod shared_files;
mod surroundings;

pub use command_faults::{Fault, FileFault, NamedFile};
pub use command_line::asks_why;
pub use commands::{command, report};
pub use surroundings::{Surroundings, Terminals};
