//! Plays the matches of a schedule (a season), several at once.
//!
//! `play_season` plays the matches and writes their records, each followed by its call log if the form asks for it.
//! Free functions take the allocator first, after a handle for threads and waiting.
#![tactic(auto)]

mod queue;
mod results;
mod scheduler;
mod season;
mod season_output;
mod written;

pub use season::{SeasonSurroundings, play_season};
pub use season_output::{ReportsMissing, SeasonFault};
