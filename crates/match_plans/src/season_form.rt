//! How to play a batch of matches and write its records.

/// The order of the records in the output.
#[derive(Clone, Copy)]
pub enum RecordOrder {
    /// The order of the schedule. A record is written when it and all earlier records are complete.
    OfSchedule,
    /// Each record is written when its match ends.
    OfEnds,
}

/// How to play a batch of matches and write its records.
#[derive(Clone, Copy)]
pub struct SeasonForm {
    /// The largest number of matches that are played at once.
    pub at_once: usize,
    /// The largest number of matches that a player plays at once.
    pub concurrent: usize,
    pub order: RecordOrder,
    /// Whether the call log of each match follows its record.
    pub has_history: bool,
}
