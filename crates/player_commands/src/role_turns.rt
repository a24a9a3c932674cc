//! The turns of one role in a match.
ghost use Rattle.std.specs.Prelude.{◌≡◌, ◌<◌, IfOk};
ghost use Rattle.player_commands.specs.RoleTurns.{AreTurnsOf};

use crate::move_words::push_illegal_words;
use crate::watched::CheckReach;
use game_core::{Game, Lent, Text};
use match_book::Match;
use match_play::{MatchFault, MatchReader};
use packed_rules::PackedGame;
use std::alloc::{AllocError, Global};

/// One turn of a match, for one role.
#[derive(Drop)]
pub struct RoleTurn {
    /// The text of the role's recorded move.
    pub played: Text,
    /// The error that is recorded with the move. It is empty if the move is the role's answer.
    pub error: Text,
    /// Why the answer was not a legal move. It is empty if the answer was legal.
    pub words: String,
}

fn turns_of<G: Game>(
    alloc: Global,
    game: &G,
    held: &Match<G>,
    role: usize,
) -> Result<Vec<RoleTurn>, AllocError>
    requires game { held.now.game ≡ game.now }
    requires role { role < (G.rules game.now).roles }
    ensures { IfOk result (λ told. AreTurnsOf (G.rules game.now) held.now.value.turns role told.items) }
{
    let count = held.status().turns as usize;
    let mut turns = Vec::with_capacity(alloc, count)?;
    for turn in 0..count {
        let played = Text::from_slice(alloc, game.move_text(held.move_at(turn, role)))?;
        let error = Text::from_slice(alloc, held.error_at(turn, role))?;
        let mut words = String::new(alloc);
        push_illegal_words(alloc, game, held, turn, role, &mut words)?;
        turns.push(RoleTurn {
            played,
            error,
            words,
        })?;
    }
    Ok(turns)
}

impl<H, S> MatchReader for CheckReach<'_, H, S> {
    ghost use Rattle.std.specs.Prelude.{◌≢◌, ◌≤◌, None, IfErr};
    ghost use Rattle.ground_rules.specs.LoadedGame.{loaded_game};
    ghost use Rattle.match_play.specs.Matches.{reason_of};
    ghost use Rattle.packed_rules.specs.PackedGames.{tables_of};

    type Told = Vec<RoleTurn>;

    ghost is_told = { λ w held told. AreTurnsOf (loaded_game (tables_of held.game)) held.value.turns w.role told.items };

    /// Reads the turns of the watched player's role. The error is `NotEnded` if the game has no such role.
    fn read<'g>(
        &self,
        alloc: Global,
        game: &Lent<'g, PackedGame>,
        held: &Match<Lent<'g, PackedGame>>,
    ) -> Result<Vec<RoleTurn>, MatchFault>
        requires { held.now.game ≡ game.now }
        ensures told { IfOk result (λ told. AreTurnsOf (loaded_game (tables_of held.now.game)) held.now.value.turns self.now.role told.items) }
        ensures fault { IfErr result (λ fault. reason_of fault ≡ None) }
        ensures not_ended { IfErr result (λ fault. fault ≢ MatchFault.Memory → (fault ≡ MatchFault.NotEnded) × ((loaded_game (tables_of game.now)).roles ≤ self.now.role)) }
    {
        if self.role >= game.roles() {
            return Err(MatchFault::NotEnded);
        }
        let turns = turns_of(alloc, game, held, self.role)?;
        Ok(turns)
    }
}
