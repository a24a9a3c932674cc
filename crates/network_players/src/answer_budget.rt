//! Limits the total length of a player's answers in a match.
ghost use Rattle.std.specs.Prelude.{◌≡◌, ◌↔◌, max, IsTrue};
ghost use Rattle.network_players.specs.Budgets.{IsPaid, spent_after};

use std::cmp;

/// The largest number of bytes that the answers of a player may have in a match, beyond the free part of each.
const BUDGET: usize = 1_048_576;

/// At least this many bytes of each answer are free.
const LEAST_FREE: usize = 64;

/// The number of bytes of a player's answers in a match that have not been free so far.
#[derive(Drop)]
pub struct AnswerBudget {
    /// The number of bytes of each answer that are free.
    free: usize,
    spent: usize,
}

impl AnswerBudget {
    /// Creates the budget of a player that has not answered yet. An answer as long as the longest move is free.
    pub fn new(longest_move: usize) -> AnswerBudget
        ensures free { result.free ≡ max 64 longest_move }
        ensures spent { result.spent ≡ 0 }
    {
        AnswerBudget {
            free: cmp::max(LEAST_FREE, longest_move),
            spent: 0,
        }
    }

    /// Spends the part of an answer of this length that is not free. Returns whether the answer counts: an answer counts if it is free,
    /// or if the budget is large enough.
    pub fn pay(&mut self, length: usize) -> bool
        ensures free { self.new.free ≡ self.old.free }
        ensures spent { self.new.spent ≡ spent_after self.old.spent self.old.free length }
        ensures paid { IsTrue result ↔ IsPaid self.new.spent self.new.free length }
    {
        self.spent = self.spent.saturating_add(length.saturating_sub(self.free));
        length <= self.free || self.spent <= BUDGET
    }
}
