//! Laws about the texts and trees of all records.
ghost use Rattle.record_reading.specs.LawfulRecord.{HoldsOnePartsAtMost, LawfulPartsHaveShape, RecordTreeHoldsParts, RecordsAreLawful, RefusedIsUnlawful};

use game_core::Game;
use match_book::laws::{lawful_turns_are_of_the_game, stages_are_settled};

/// The record tree of a match has the match's value at each of its keys.
pub fn record_tree_holds_parts<G: Game>(game: &G)
    ensures { RecordTreeHoldsParts (G.rules game.now) }
{}

/// A text that reads as the record tree of a lawful match is a lawful record.
pub fn records_are_lawful<G: Game>(game: &G)
    ensures { RecordsAreLawful (G.rules game.now) }
{}

/// The values of a lawful match's record, in either version, have the required shape.
pub fn lawful_parts_have_shape<G: Game>(game: &G)
    ensures { LawfulPartsHaveShape (G.rules game.now) }
{
    lawful_turns_are_of_the_game::<G>();
    stages_are_settled::<G>();
}

/// A tree has the values of at most one record of the required shape.
pub fn holds_one_parts_at_most<G: Game>(game: &G)
    ensures { HoldsOnePartsAtMost (G.rules game.now) }
{}

/// A text that is refused for its shape is not a lawful record.
pub fn refused_is_unlawful<G: Game>(game: &G)
    ensures { RefusedIsUnlawful (G.rules game.now) }
{
    lawful_parts_have_shape(game);
}
