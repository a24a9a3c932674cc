//! Games that a ground GDL description defines.
//!
//! `load` makes a `Game` from a description (a list of KIF expressions), or returns the first error. `load_within` does the
//! same with limits that the caller gives.
//!
//! A state stores which of the derived atoms that do not depend on moves are true, so `legal`, `terminal` and `goal` only
//! look them up. `next` starts from these atoms and evaluates the other rules. Then it evaluates the rules that do not
//! depend on moves in the new state. Each rule is evaluated once, after the rules that it depends on, so the time for a
//! turn is linear in the size of the description. `load` recurses into nested lists, so keep to the nesting that
//! `kif_text::Expr` recommends.
#![tactic(auto)]

mod evaluate;
mod ground_game;
pub mod laws;
mod load_game;
mod loading;
mod lookups;
mod names;
mod resolve;
mod state;
pub mod tables;
pub mod vocabulary;

pub use evaluate::makes;
pub use ground_game::GroundGame;
pub use load_game::{load, load_within};
pub use rule_sentences::LoadFault;
pub use state::{GroundMove, GroundState};
