//! Loads the game of a command.
ghost use Rattle.std.specs.Prelude.{◌≡◌, ◌⊎◌, IfErr, IfOk};
ghost use Rattle.std.specs.Cow.{cow_slice_items};
ghost use Rattle.described_games.specs.Games.{IsDescribed};
ghost use Rattle.command_faults.specs.declared.fault.Fault.TheVariants.{BadPlayerRules, Memory};
ghost use Rattle.game_commands.specs.Commands.{HasNoText, HasNoSourceText, IsRefused, IsTextOf, IsSourceText, limits_of};

use crate::evidence::Evidence;
use command_faults::{Fault, MaxBytes, NamedFile, file_text};
use described_games::{DescriptionFault, countdown_rules, described_game};
use game_core::{Countdown, Limits};
use kif_text::KifFault;
use match_plans::{GameSource, RulesSource};
use packed_rules::PackedGame;
use std::alloc::Global;
use std::borrow::CowSlice;
use std::rt::Files;

/// The text of a description. If the description is in a file, the file must be within these limits.
pub fn rules_text<'a, F: Files>(
    files: &F,
    alloc: Global,
    limits: Limits,
    rules: RulesSource<'a>,
) -> Result<CowSlice<'a, u8>, Fault>
    ensures text { IfOk result (λ text. IsTextOf rules.entry (cow_slice_items text)) }
    ensures fault { IfErr result (HasNoText rules.entry) }
{
    match rules {
        RulesSource::Text(text) => Ok(CowSlice::Borrowed(text.as_bytes())),
        RulesSource::File(path) => {
            let limit = MaxBytes::of_description(limits);
            let text = file_text(files, alloc, NamedFile::Rules, path, limit)?;
            Ok(CowSlice::Owned(text))
        }
    }
}

/// The game that a text describes within these limits. Stores a text that does not describe a game as evidence.
pub fn game_of(
    alloc: Global,
    limits: Limits,
    text: &[u8],
    evidence: &mut Evidence,
) -> Result<PackedGame, Fault>
    ensures described { IfOk result (IsDescribed limits text.now) }
    ensures refused { IfErr result (IsRefused limits text.now) }
{
    match described_game(alloc, limits, text) {
        Ok(game) => Ok(game),
        Err(DescriptionFault::Memory) => Err(Fault::Memory),
        Err(fault) => {
            *evidence = Evidence::of_description(alloc, limits, text, fault);
            Err(Fault::BadDescription)
        }
    }
}

/// The error for a file of players' rules that is not KIF. Stores the text as evidence.
pub fn player_rules_fault(text: Vec<u8>, fault: KifFault, evidence: &mut Evidence) -> Fault
    ensures { (result ≡ Memory) ⊎ (result ≡ BadPlayerRules) }
{
    match DescriptionFault::from(fault) {
        DescriptionFault::Memory => Fault::Memory,
        fault => {
            *evidence = Evidence::Description(text, Limits::Usual, fault);
            Fault::BadPlayerRules
        }
    }
}

/// The limits for a game's description; for Countdown, the usual limits.
pub fn limits_of(game: GameSource<'_>) -> Limits
    ensures { result ≡ limits_of game.entry }
{
    match game {
        GameSource::Described(_, limits) => limits,
        GameSource::Countdown(_) => Limits::Usual,
    }
}

/// The text of a game's rules for players. The program contains Countdown's rules.
pub fn source_text<'a, F: Files>(
    files: &F,
    alloc: Global,
    game: GameSource<'a>,
) -> Result<CowSlice<'a, u8>, Fault>
    ensures text { IfOk result (λ text. IsSourceText game.entry (cow_slice_items text)) }
    ensures fault { IfErr result (HasNoSourceText game.entry) }
{
    match game {
        GameSource::Described(rules, limits) => rules_text(files, alloc, limits, rules),
        GameSource::Countdown(size) => {
            let Some(game) = Countdown::new(size) else {
                return Err(Fault::WrongUse);
            };
            match countdown_rules(alloc, game.size) {
                Ok(text) => Ok(CowSlice::Owned(text.into_bytes())),
                Err(_) => Err(Fault::Memory),
            }
        }
    }
}
