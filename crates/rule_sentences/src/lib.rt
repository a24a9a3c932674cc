//! The sentences of ground GDL descriptions.
//!
//! `read_rules` reads expressions as facts and rules, or names the first expression that is neither. It recurses into nested
//! lists, so keep to the nesting that `kif_text::Expr` recommends.
#![tactic(auto)]

mod fault;
mod placing;
mod reading;
mod rules;
pub mod sentence;
pub mod sizes;
mod terms;
mod words;

pub use fault::LoadFault;
pub use rules::{fold_each, read_rules};
