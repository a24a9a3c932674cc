//! The game of a match, and the rules that its players get.
ghost use Rattle.std.specs.Prelude.{◌≡◌, IfOk, IfErr};
ghost use Rattle.kif_text.specs.Faults.{IsFault, any_number};
ghost use Rattle.game_core.specs.Expression.{Expressions, all_folded};
ghost use Rattle.kif_text.specs.Spelling.{SpellsAll};
ghost use Rattle.kif_text.specs.View.{expressions};
ghost use Rattle.match_messages.specs.RulesText.{rules_text};
ghost use Rattle.packed_rules.specs.PackedGames.{sentences_of, tables_of};
ghost use Rattle.ground_rules.specs.LoadedGame.{loaded_game};
ghost use Rattle.match_play.specs.LongestMoves.{IsLongestMove};

use kif_text::{KifFault, read_all};
use match_book::MAX_ANSWER;
use match_messages::PrintedRules;
use packed_rules::PackedGame;
use std::alloc::{AllocError, Global};

/// The game that the referee plays, and the rules that START sends to the players.
#[derive(Clone, Copy)]
pub struct PlayableGame<'g> {
    pub game: &'g PackedGame,
    pub rules: &'g PrintedRules,
    /// The length in bytes of the game's longest move that fits into an answer, or 64 if that is more.
    pub(crate) longest_move: usize,
}

impl<'g> PlayableGame<'g> {
    /// Lends a game and the rules for its players, and computes the longest move.
    pub fn new(game: &'g PackedGame, rules: &'g PrintedRules) -> PlayableGame<'g>
        ensures game { result.game.now ≡ game.now }
        ensures rules { result.rules.now ≡ rules.now }
        ensures longest { IsLongestMove (loaded_game (tables_of game.now)) result.longest_move }
    {
        PlayableGame {
            game,
            rules,
            longest_move: longest_move(game),
        }
    }
}

/// The smallest value of `longest_move`, in bytes. It leaves room for extra spaces in answers even if all moves of the
/// game are shorter.
const SHORT_MOVE: usize = 64;

/// The length of the longest move that fits into an answer, or `SHORT_MOVE` if that is more.
fn longest_move(game: &PackedGame) -> usize
    ensures { IsLongestMove (loaded_game (tables_of game.now)) result }
{
    let texts = game.move_texts();
    let mut longest = SHORT_MOVE;
    for text in texts {
        let length = text.as_slice().len();
        if longest < length && length <= MAX_ANSWER {
            longest = length;
        }
    }
    longest
}

/// Prints the sentences of the game's own description. The error is out of memory.
pub fn own_rules(alloc: Global, game: &PackedGame) -> Result<PrintedRules, AllocError>
    ensures { IfOk result (λ printed. printed ≡ rules_text (expressions (sentences_of game.now))) }
{
    PrintedRules::of(alloc, game.description())
}

/// Prints the sentences of another description in lower case. Players get them instead of the game's own sentences. The
/// error is the first error of the text as KIF, or `Memory`.
pub fn other_rules(alloc: Global, text: &[u8]) -> Result<PrintedRules, KifFault>
    ensures spelled { IfOk result (λ printed. (sentences : Expressions) × SpellsAll text.now sentences × (printed ≡ rules_text (all_folded sentences))) }
    ensures fault { IfErr result (IsFault any_number text.now) }
{
    let sentences = read_all(alloc, text)?;
    match PrintedRules::without_capitals(alloc, sentences.as_slice()) {
        Ok(printed) => Ok(printed),
        Err(AllocError) => Err(KifFault::Memory),
    }
}
