//! The roles that are retired because too many of their moves in a row were replaced.
ghost use Rattle.std.specs.Prelude.{◌≡◌, ◌==◌, ◌<◌, ◌≤◌, ℕ, All, IfOk, length, replicate, slice_index_or, []};
ghost use Rattle.match_book.specs.MatchValue.{is_error};
ghost use Rattle.match_book.specs.Phase.{max_turns};
ghost use Rattle.match_book.specs.Roles.{every_role};
ghost use Rattle.match_book.specs.RoleStrikes.{after_turn, unstruck, is_retired_in, answered_at_first, count_roles};

use crate::phase::Stage;
use game_core::Text;
use std::alloc::{AllocError, Global};

/// A role's strikes: its replaced moves in a row, and whether the role is retired.
#[derive(Clone, Copy)]
pub struct RoleStrikes {
    /// How many of the role's moves in a row were replaced, up to the last turn.
    pub in_a_row: usize,
    pub is_retired: bool,
}

/// A role's strikes before the first turn.
const UNSTRUCK: RoleStrikes = RoleStrikes {
    in_a_row: 0,
    is_retired: false,
};

impl RoleStrikes {
    /// The strikes after one more turn. `limit` replaced moves in a row retire a role; 0 means never.
    fn after_turn(self, limit: u8, is_struck: bool) -> RoleStrikes
        requires { self.in_a_row ≤ max_turns }
        ensures { result ≡ after_turn limit self is_struck }
    {
        if !is_struck {
            return RoleStrikes {
                in_a_row: 0,
                is_retired: self.is_retired,
            };
        }
        let in_a_row = self.in_a_row + 1;
        RoleStrikes {
            in_a_row,
            is_retired: self.is_retired || (limit > 0 && in_a_row >= usize::from(limit)),
        }
    }
}

/// Each role's strikes before the first turn.
pub fn all_unstruck(alloc: Global, roles: usize) -> Result<Vec<RoleStrikes>, AllocError>
    ensures { IfOk result (λ v. v.items ≡ replicate roles unstruck) }
{
    vec![in alloc; UNSTRUCK; roles]
}

/// Each role's strikes after one more turn with these errors. `kept` has the strikes before the turn. `limit` replaced
/// moves in a row retire a role; 0 means never.
pub fn strikes_after(
    alloc: Global,
    limit: u8,
    kept: &[RoleStrikes],
    errors: &[Text],
) -> Result<Vec<RoleStrikes>, AllocError>
    requires errors { length errors.now ≡ length kept.now }
    requires few { All (λ s. s.in_a_row ≤ max_turns) kept.now }
    ensures one_each { IfOk result (λ v. length v.items ≡ length kept.now) }
    ensures each { IfOk result (λ v. (r : ℕ) (d : RoleStrikes) → r < length kept.now → slice_index_or v.items r d ≡ after_turn limit (slice_index_or kept.now r unstruck) (is_error (slice_index_or errors.now r []))) }
{
    let mut after = Vec::with_capacity(alloc, kept.len())?;
    for role in 0..kept.len() {
        let is_struck = !errors[role].as_slice().is_empty();
        after.push(kept[role].after_turn(limit, is_struck))?;
    }
    Ok(after)
}

/// Whether the role is retired.
pub fn is_retired_at(kept: &[RoleStrikes], role: usize) -> bool
    requires { role < length kept.now }
    ensures { result ≡ is_retired_in kept.now role }
{
    kept[role].is_retired
}

/// The number of retired roles.
pub fn count_retired(kept: &[RoleStrikes]) -> usize
    ensures count { result ≡ count_roles (length kept.now) (is_retired_in kept.now) }
    ensures all { every_role (length kept.now) (is_retired_in kept.now) ≡ (result == length kept.now) }
{
    let mut count = 0;
    for role in 0..kept.len() {
        if kept[role].is_retired {
            count += 1;
        }
    }
    count
}

/// The number of roles that count as having answered when a round begins: in play, the retired roles.
pub fn answered_at_first(stage: Stage, retired: usize) -> usize
    ensures { result ≡ answered_at_first stage retired }
{
    match stage {
        Stage::Playing => retired,
        _ => 0,
    }
}
