//! Looks up the answers of a packed game in a row.
ghost use Rattle.std.specs.Prelude.{◌≡◌, ◌+◌, ◌<◌, ◌^◌, length, map, IfOk, take, drop};
ghost use Rattle.std.specs.Cow.{cow_slice_items};
ghost use Rattle.ground_rules.specs.Lookups.{marked, chosen, only_goal, picked};
ghost use Rattle.ground_rules.specs.Numbered.{unset};

use crate::bits::BitRow;
use crate::state::PackedState;
use game_core::Text;
use ground_rules::GroundMove;
use ground_rules::tables::{GoalHead, Mention};
use std::alloc::{AllocError, Global};
use std::borrow::CowSlice;

/// Makes a row of `terms` terms and `atoms` atoms, and sets the terms of the true mentions.
pub fn mark(
    alloc: Global,
    mentions: &[Mention],
    truth: &BitRow,
    terms: usize,
    atoms: usize,
) -> Result<BitRow, AllocError>
    requires { terms + atoms < 2 ^ 64 }
    ensures terms { IfOk result (λ bits. take terms bits ≡ marked (unset terms) (drop terms truth.now) mentions.now) }
    ensures atoms { IfOk result (λ bits. drop terms bits ≡ unset atoms) }
{
    let mut bits = BitRow::unset(alloc, terms + atoms)?;
    for mention in mentions {
        if truth.is_set_after(terms, mention.atom) {
            bits.set_before(terms, mention.term);
        }
    }
    Ok(bits)
}

/// The moves with true heads.
pub fn choose(
    alloc: Global,
    heads: &[Mention],
    state: &PackedState,
) -> Result<Vec<GroundMove>, AllocError>
    ensures { IfOk result (λ v. v.items ≡ chosen state.now.kept heads.now) }
{
    let mut moves = Vec::new(alloc);
    for head in heads {
        if state.has_atom(head.atom) {
            moves.push(GroundMove { term: head.term })?;
        }
    }
    Ok(moves)
}

/// The value of the true head if exactly one head is true, otherwise `None`.
pub fn find_goal(heads: &[GoalHead], state: &PackedState) -> Option<u8>
    ensures { result ≡ only_goal state.now.kept heads.now }
{
    let mut found = None;
    for head in heads {
        if state.has_atom(head.atom) {
            if found.is_some() {
                return None;
            }
            found = Some(head.value);
        }
    }
    found
}

/// The texts of the terms that are set, in order.
pub fn pick<'a>(
    alloc: Global,
    state: &PackedState,
    texts: &'a [Text],
) -> Result<Vec<CowSlice<'a, u8, Global>>, AllocError>
    requires { length state.now.row ≡ length texts.now }
    ensures { IfOk result (λ v. map cow_slice_items v.items ≡ picked state.now.row texts.now) }
{
    let mut found = Vec::new(alloc);
    for (term, text) in texts.iter().enumerate() {
        if state.has_term(term) {
            found.push(CowSlice::Borrowed(text.as_slice()))?;
        }
    }
    Ok(found)
}
