//! Rules in the order of a ranking.
ghost use Rattle.std.specs.Prelude.{◌≡◌, IfOk, slice_index};
ghost use Rattle.std.specs.List.Sorted.{IsPermutation, IsNonDecreasingBy};

use crate::numbered::Rule;
use std::alloc::AllocError;

fn rank_at(places: &[usize], atom: usize) -> usize
    ensures { result ≡ slice_index places.now atom }
{
    if atom < places.len() { places[atom] } else { 0 }
}

/// Sorts the rules by the places of their heads.
pub fn sort_by_rank(rules: Vec<Rule>, places: &[usize]) -> Result<Vec<Rule>, AllocError>
    ensures moved { IfOk result (λ v. IsPermutation rules.items v.items) }
    ensures sorted { IfOk result (λ v. IsNonDecreasingBy (λ r. slice_index places.now r.head) v.items) }
{
    let mut rules = rules;
    rules.sort_by_key(|rule| rank_at(places, rule.head))?;
    Ok(rules)
}
