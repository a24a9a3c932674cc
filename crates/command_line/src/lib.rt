//! The command line of `ggp_manager`.
//!
//! `read_arguments` turns the arguments into a `Task`, and `refusal` turns an `ArgumentFault` into a message for the user. Free functions
//! take the allocator first.
#![tactic(auto)]

mod arguments;
mod program;
mod refusals;
mod tasks;

pub use arguments::{ArgumentFault, WrongValue, read_arguments};
pub use program::VERSION;
pub use refusals::{always_explains, asks_why, refusal};
pub use tasks::{
    AbortPlan, GameOptions, GameRequest, InfoPlan, MatchTask, RunPlan, SeasonPlan, ServicePlan,
    Task,
};
