//! Packs ground games.
ghost use Rattle.std.specs.Prelude.{◌≡◌, length, IfOk, IfErr};
ghost use Rattle.packed_rules.specs.PackedGames.{IsPackedFormOf};

use crate::packed_game::PackedGame;
use crate::packed_rules::PackedRules;
use ground_rules::GroundGame;
use std::alloc::{AllocError, Global};

fn rules_by_place(alloc: Global, game: &GroundGame) -> Result<PackedRules, AllocError>
    ensures { IfOk result (λ p. p ≡ record { terms = length game.now.vocabulary.states.items; plain = game.now.rules }) }
{
    PackedRules::new(alloc, game.rules(), game.vocabulary().states.len())
}

/// Packs a game. The packed game is the game of the same description. If an allocation is refused, this returns the game
/// unchanged.
pub fn pack(alloc: Global, game: GroundGame) -> Result<PackedGame, (GroundGame, AllocError)>
    ensures form { IfOk result (IsPackedFormOf game) }
    ensures refused { IfErr result (λ e. e.0 ≡ game) }
{
    match rules_by_place(alloc, &game) {
        Ok(rules) => Ok(PackedGame::new(game.into_vocabulary(), rules)),
        Err(error) => Err((game, error)),
    }
}
