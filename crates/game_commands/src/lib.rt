//! The commands that need one game and no players: `desk`, `verify` and `replay`.
//!
//! `for_game` runs one of these commands. It stores an `Evidence`, so that `explanations` can explain the result. Free functions
//! take the allocator first, after a handle for files.
#![tactic(auto)]

mod answers;
mod checking;
mod commands;
mod evidence;
mod interactive;
mod replaying;
mod rules;
mod script;
mod verdicts;

pub use answers::{Answers, answer_script, push_records};
pub use commands::for_game;
pub use evidence::Evidence;
pub use interactive::run_interactive;
pub use rules::{game_of, limits_of, player_rules_fault, rules_text, source_text};
pub use script::run_script;
