//! A form of ground games that is fast to play.
//!
//! `pack` makes it from a `GroundGame`; the packed game gives the same answers. A state is one row of bits: one bit for each
//! term of an `init` or `next` head, and one for each derived atom that does not depend on moves. A literal reads the bit at
//! one place. A turn evaluates each rule once and allocates only the rows.
#![tactic(auto)]

mod bits;
mod lookups;
mod packed_form;
mod packed_game;
mod packed_rules;
mod packing;
mod passing;
mod rule_table;
mod rules;
mod state;

pub use packed_form::pack;
pub use packed_game::PackedGame;
pub use state::PackedState;
