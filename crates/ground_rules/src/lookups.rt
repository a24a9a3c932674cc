//! Looks up the answers of a game in a row of truth values.
ghost use Rattle.std.specs.Prelude.{◌≡◌, length, map, IfOk};
ghost use Rattle.std.specs.Cow.{cow_slice_items};
ghost use Rattle.ground_rules.specs.Lookups.{marked, chosen, only_goal, picked};
ghost use Rattle.numbered_rules.specs.Numbered.{unset};

use crate::state::GroundMove;
use crate::tables::{GoalHead, Mention};
use game_core::Text;
use numbered_rules::Row;
use std::alloc::{AllocError, Global};
use std::borrow::CowSlice;

/// Makes a row of `terms` values, and sets the terms of the true mentions.
pub fn mark(alloc: Global, mentions: &[Mention], row: &Row, terms: usize) -> Result<Row, AllocError>
    ensures { IfOk result (λ marks. marks ≡ marked (unset terms) row.now mentions.now) }
{
    let mut marks = Row::unset(alloc, terms)?;
    for mention in mentions {
        if row.is_set(mention.atom) {
            marks.set(mention.term);
        }
    }
    Ok(marks)
}

/// The moves with true heads.
pub fn choose(alloc: Global, heads: &[Mention], row: &Row) -> Result<Vec<GroundMove>, AllocError>
    ensures { IfOk result (λ v. v.items ≡ chosen row.now heads.now) }
{
    let mut moves = Vec::new(alloc);
    for head in heads {
        if row.is_set(head.atom) {
            moves.push(GroundMove { term: head.term })?;
        }
    }
    Ok(moves)
}

/// The value of the true head if exactly one head is true, otherwise `None`.
pub fn find_goal(heads: &[GoalHead], row: &Row) -> Option<u8>
    ensures { result ≡ only_goal row.now heads.now }
{
    let mut found = None;
    for head in heads {
        if row.is_set(head.atom) {
            if found.is_some() {
                return None;
            }
            found = Some(head.value);
        }
    }
    found
}

/// The texts of the terms that are set, in order.
pub fn pick<'a>(
    alloc: Global,
    row: &Row,
    texts: &'a [Text],
) -> Result<Vec<CowSlice<'a, u8, Global>>, AllocError>
    requires { length row.now ≡ length texts.now }
    ensures { IfOk result (λ v. map cow_slice_items v.items ≡ picked row.now texts.now) }
{
    let mut found = Vec::new(alloc);
    for (term, text) in texts.iter().enumerate() {
        if row.is_set(term) {
            found.push(CowSlice::Borrowed(text.as_slice()))?;
        }
    }
    Ok(found)
}
