//! The game to play, and the rules for its players.
ghost use Rattle.std.specs.Prelude.{◌≡◌, ◌⊎◌, ℕ, List, IfErr, IfOk};
ghost use Rattle.described_games.specs.Games.{IsDescribed};
ghost use Rattle.game_commands.specs.Commands.{IsRefused};
ghost use Rattle.ggp_commands.specs.LoadedGame.{AreRulesFor, AreSpelled, HasNoRules, IsLoadedGame, IsNotLoadedGame, IsPlayerRulesFault};

use command_faults::{Fault, MAX_PLAYER_RULES, MaxBytes, NamedFile, file_text};
use command_line::GameOptions;
use game_commands::{Evidence, game_of, limits_of, player_rules_fault, source_text};
use game_core::Limits;
use match_messages::PrintedRules;
use match_play::{PlayableGame, other_rules, own_rules};
use packed_rules::PackedGame;
use std::alloc::Global;
use std::rt::Files;

/// The game to play, and the rules that START sends.
#[derive(Drop)]
pub struct LoadedGame {
    game: PackedGame,
    rules: PrintedRules,
}

impl LoadedGame {
    /// Lends the game and its rules.
    pub fn playable(&self) -> PlayableGame<'_>
        ensures game { result.game.now ≡ self.now.game }
        ensures rules { result.rules.now ≡ self.now.rules }
    {
        PlayableGame::new(&self.game, &self.rules)
    }
}

fn rules_in<F: Files>(
    files: &F,
    alloc: Global,
    path: &str,
    evidence: &mut Evidence,
) -> Result<PrintedRules, Fault>
    ensures spelled { IfOk result (λ rules. (text : List ℕ) × AreSpelled text rules) }
    ensures fault { IfErr result IsPlayerRulesFault }
{
    let limit = MaxBytes::fixed(MAX_PLAYER_RULES);
    let text = file_text(files, alloc, NamedFile::PlayerRules, path, limit)?;
    match other_rules(alloc, &text) {
        Ok(rules) => Ok(rules),
        Err(fault) => Err(player_rules_fault(text, fault, evidence)),
    }
}

/// The rules for the players: the rules of the file, if one is named, and otherwise the rules of the game.
fn rules_for<F: Files>(
    files: &F,
    alloc: Global,
    game: &PackedGame,
    player_rules: Option<&str>,
    evidence: &mut Evidence,
) -> Result<PrintedRules, Fault>
    ensures rules { IfOk result (λ rules. AreRulesFor player_rules.entry game.now rules) }
    ensures fault { IfErr result (HasNoRules player_rules.entry) }
{
    match player_rules {
        None => Ok(own_rules(alloc, game)?),
        Some(path) => rules_in(files, alloc, path, evidence),
    }
}

/// The game that a text describes within these limits, with the rules for its players.
fn loaded_game_of<F: Files>(
    files: &F,
    alloc: Global,
    limits: Limits,
    text: &[u8],
    player_rules: Option<&str>,
    evidence: &mut Evidence,
) -> Result<LoadedGame, Fault>
    ensures game { IfOk result (λ loaded_game. IsDescribed limits text.now loaded_game.game) }
    ensures rules { IfOk result (λ loaded_game. AreRulesFor player_rules.entry loaded_game.game loaded_game.rules) }
    ensures fault { IfErr result (λ fault. IsRefused limits text.now fault ⊎ HasNoRules player_rules.entry fault) }
{
    let game = game_of(alloc, limits, text, evidence)?;
    let rules = rules_for(files, alloc, &game, player_rules, evidence)?;
    Ok(LoadedGame { game, rules })
}

/// Loads the game that the options name, with the rules for its players.
pub fn load<F: Files>(
    files: &F,
    alloc: Global,
    plan: GameOptions<'_>,
    evidence: &mut Evidence,
) -> Result<LoadedGame, Fault>
    ensures playable { IfOk result (λ loaded_game. IsLoadedGame plan.entry loaded_game.game loaded_game.rules) }
    ensures fault { IfErr result (IsNotLoadedGame plan.entry) }
{
    let text = source_text(files, alloc, plan.game)?;
    loaded_game_of(
        files,
        alloc,
        limits_of(plan.game),
        &text,
        plan.player_rules,
        evidence,
    )
}
