//! Rules of a ground description, with numbers instead of names.
//!
//! `rank` orders derived atoms so that each comes after the atoms that it needs, and `sort_by_rank` sorts the rules by this
//! order of their heads. `dependence` finds, in one pass over the sorted rules, which atoms depend on the moves or on the
//! state. `split` separates the rules of these atoms from the others.
#![tactic(auto)]

pub mod dependence;
mod needs;
pub mod numbered;
pub mod rank;
mod row;
mod sorting;
pub mod split;

pub use needs::needs_of;
pub use row::Row;
pub use sorting::sort_by_rank;
