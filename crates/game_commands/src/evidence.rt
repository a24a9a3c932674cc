//! The evidence that a command stores, so that `explanations` can explain its result.

use described_games::DescriptionFault;
use desk_text::ReplayFault;
use game_core::Limits;
use std::alloc::Global;

/// The cause of a command's error, or the number of lines that the command skipped. It is `Nothing` if the command ran out of memory.
#[derive(Drop)]
pub enum Evidence {
    Nothing,
    /// The explanation of a refused command line.
    CommandLine(String),
    /// A text that does not describe a game within these limits, and its first error.
    Description(Vec<u8>, Limits, DescriptionFault),
    /// A script with a bad line.
    Script(Vec<u8>),
    /// A text that should be a record, but is not JSON.
    Record(Vec<u8>),
    /// A refused call log, and the number of lines before it.
    Account(Vec<u8>, u64, ReplayFault),
    /// The number of lines of call logs that were skipped.
    SkippedLines(u64),
}

impl Evidence {
    /// The evidence for a text that does not describe a game within these limits.
    pub fn of_description(
        alloc: Global,
        limits: Limits,
        text: &[u8],
        fault: DescriptionFault,
    ) -> Evidence {
        match Vec::from_slice(alloc, text) {
            Ok(text) => Evidence::Description(text, limits, fault),
            Err(_) => Evidence::Nothing,
        }
    }
}
