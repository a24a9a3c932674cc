//! Makes games from expressions.
ghost use Rattle.std.specs.Prelude.{map};
ghost use Rattle.game_core.specs.Expression.{folded};
ghost use Rattle.kif_text.specs.View.{view as expression};
ghost use Rattle.ground_rules.specs.Loaded.{IsLoadAnswer, IsLoadAnswerWithin};

use crate::ground_game::GroundGame;
use crate::loading::game_parts;
use game_core::Limits;
use kif_text::{Expr, folded_copies};
use rule_sentences::{LoadFault, fold_each, read_rules};
use std::alloc::Global;

/// Makes the game of a description in lower case, or returns its first error within these limits.
fn load_folded(
    alloc: Global,
    limits: Limits,
    description: Vec<Expr>,
) -> Result<GroundGame, LoadFault>
    ensures { IsLoadAnswerWithin limits (map expression description.items) result }
{
    let rules = read_rules(alloc, &description)?;
    let parts = game_parts(alloc, limits, description.len(), &rules)?;
    Ok(GroundGame::new(alloc, description, parts)?)
}

/// Makes the game of a ground description: facts and rules of GDL without variables, in upper or lower case, within the
/// usual limits. Sentences are numbered from 0. `LoadFault` documents the order of the errors.
pub fn load(alloc: Global, sentences: &[Expr]) -> Result<GroundGame, LoadFault>
    ensures { IsLoadAnswer (map folded (map expression sentences.now)) result }
{
    let description = folded_copies(alloc, sentences)?;
    load_folded(alloc, Limits::Usual, description)
}

/// Like `load`, but within these limits. The game takes ownership of the sentences, whereas `load` copies them.
pub fn load_within(
    alloc: Global,
    limits: Limits,
    sentences: Vec<Expr>,
) -> Result<GroundGame, LoadFault>
    ensures { IsLoadAnswerWithin limits (map folded (map expression sentences.items)) result }
{
    let mut description = sentences;
    fold_each(&mut description);
    load_folded(alloc, limits, description)
}
