//! The settled matches of a season, and the number of written records.
ghost use Rattle.std.specs.Prelude.{◌≡◌, count_by};

use std::alloc::{AllocError, Global};

/// The progress of a season's output. A match is settled once its record has been written or reported as missing.
#[derive(Drop)]
pub struct Written {
    pub records: u64,
    settled: usize,
    /// Whether each match is settled, by its index in the schedule.
    pub is_settled: Vec<bool>,
    ghost counted: { settled ≡ count_by (λ it. it) is_settled.items },
}

impl Written {
    ghost use Rattle.std.specs.Prelude.{◌≡◌, ◌-◌, ◌↔◌, false, true, IfOk, IsTrue, replicate, slice_set, vec_len};
    ghost use Rattle.match_season.specs.Seasons.{AreSettled, is_open};

    /// The initial state for `count` matches: no match is settled.
    pub fn nothing(alloc: Global, count: usize) -> Result<Written, AllocError>
        ensures { IfOk result (λ written. (written.records ≡ 0) × (written.is_settled.items ≡ replicate count false)) }
    {
        Ok(Written {
            records: 0,
            settled: 0,
            is_settled: vec![in alloc; false; count]?,
        })
    }

    /// The number of matches without a record.
    pub fn missing(&self) -> u64
        ensures { result ≡ vec_len self.now.is_settled - self.now.records }
    {
        (self.is_settled.len() as u64).saturating_sub(self.records)
    }

    /// Whether all matches are settled.
    pub fn is_complete(&self) -> bool
        ensures { IsTrue result ↔ AreSettled self.now }
    {
        self.settled == self.is_settled.len()
    }

    /// Whether there is a match with this index that is not settled.
    pub fn is_open(&self, place: usize) -> bool
        ensures { result ≡ is_open self.now.is_settled.items place }
    {
        match self.is_settled.get(place) {
            Some(is_settled) => !*is_settled,
            None => false,
        }
    }

    /// Settles the match with this index.
    pub fn settle(&mut self, place: usize)
        ensures settled { self.new.is_settled.items ≡ slice_set self.old.is_settled.items place true }
        ensures records { self.new.records ≡ self.old.records }
    {
        if self.is_open(place) {
            self.is_settled[place] = true;
            self.settled += 1;
        }
    }
}
