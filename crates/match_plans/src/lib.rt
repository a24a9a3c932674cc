//! Plans of matches: addresses of players, the source of a game, a match, the matches of a schedule, and the check of a
//! player.
//! The trait `Reach` makes the players of a planned match, and `ReportsShortages` reports which resource the referee
//! lacked in the match.
#![tactic(auto)]

mod addresses;
mod game_source;
mod numbers;
mod plan;
mod plan_line;
mod reach;
mod schedule;
mod schedule_fault;
mod season_form;
mod shortages;

pub use addresses::{PlayerAddress, player_address};
pub use game_source::{GameCommand, GameSource, GameTask, RulesSource};
pub use numbers::{decimal, decimal_from};
pub use plan::{CheckPlan, MatchPlan};
pub use reach::{Reach, RolePlace};
pub use schedule::{MAX_AT_ONCE, MAX_SCHEDULED, read_schedule};
pub use schedule_fault::{LineFault, ScheduleFault};
pub use season_form::{RecordOrder, SeasonForm};
pub use shortages::{ReportsShortages, Shortage};
