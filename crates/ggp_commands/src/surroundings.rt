//! The surroundings of a command, which its caller provides.

use std::alloc::Global;

/// Whether standard error and standard output are terminals, and whether the command line contains `--why` or `--json`.
#[derive(Clone, Copy)]
pub struct Terminals {
    pub errors: bool,
    pub output: bool,
    pub why: bool,
}

impl Terminals {
    /// Whether to explain errors on standard error. A program that reads standard error gets only the error itself,
    /// unless it asks for more.
    pub fn explain(self) -> bool {
        self.errors || self.why
    }
}

/// The surroundings of a command: the runtime, an allocator, and a way to reach players.
#[derive(Drop)]
pub struct Surroundings<'a, H, S> {
    pub rt: &'a H,
    pub alloc: Global,
    /// Reaches the players.
    pub reach: &'a S,
    pub terminals: Terminals,
}
