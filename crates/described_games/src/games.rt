//! Games from text.
ghost use Rattle.std.specs.Prelude.{◌≡◌, ◌≢◌, IfOk, IfErr};
ghost use Rattle.described_games.specs.Games.{IsLoadedFrom, IsDescribed, DescribesNone, IsRefusedAs};

use game_core::Limits;
use ground_rules::{GroundGame, LoadFault, load_within};
use kif_text::{KifFault, read_up_to};
use packed_rules::{PackedGame, pack};
use std::alloc::{AllocError, Global};

/// Why a text does not describe a game.
#[derive(Clone, Copy)]
pub enum DescriptionFault {
    /// The text is not KIF.
    Unread(KifFault),
    /// The sentences of the text are not a ground description.
    Unfit(LoadFault),
    /// Out of memory.
    Memory,
}

impl From<AllocError> for DescriptionFault {
    ghost use Rattle.std.specs.Prelude.{◌≡◌};
    ghost use Rattle.described_games.specs.declared.games.DescriptionFault.TheVariants.{Memory};

    ghost from_gives = { λ _ given. given ≡ Memory };

    fn from(_: AllocError) -> DescriptionFault {
        DescriptionFault::Memory
    }
}

impl From<KifFault> for DescriptionFault {
    ghost use Rattle.std.specs.Prelude.{◌≡◌};
    ghost use Rattle.described_games.specs.Games.{reading_fault};

    ghost from_gives = { λ fault given. given ≡ reading_fault fault };

    fn from(fault: KifFault) -> DescriptionFault {
        match fault {
            KifFault::Memory => DescriptionFault::Memory,
            _ => DescriptionFault::Unread(fault),
        }
    }
}

impl From<LoadFault> for DescriptionFault {
    ghost use Rattle.std.specs.Prelude.{◌≡◌};
    ghost use Rattle.described_games.specs.Games.{loading_fault};

    ghost from_gives = { λ fault given. given ≡ loading_fault fault };

    fn from(fault: LoadFault) -> DescriptionFault {
        match fault {
            LoadFault::Memory => DescriptionFault::Memory,
            _ => DescriptionFault::Unfit(fault),
        }
    }
}

fn loaded(alloc: Global, limits: Limits, rules: &[u8]) -> Result<GroundGame, DescriptionFault>
    ensures loaded { IfOk result (IsLoadedFrom limits rules.now) }
    ensures refused { IfErr result (λ fault. fault ≢ DescriptionFault.Memory → DescribesNone limits rules.now) }
    ensures fault { IfErr result (IsRefusedAs limits rules.now) }
{
    let sentences = read_up_to(alloc, rules, limits.bytes())?;
    Ok(load_within(alloc, limits, sentences)?)
}

/// Makes the packed game of a ground description. The error is the first error of the text within these limits, or `Memory`.
pub fn described_game(
    alloc: Global,
    limits: Limits,
    rules: &[u8],
) -> Result<PackedGame, DescriptionFault>
    ensures described { IfOk result (IsDescribed limits rules.now) }
    ensures refused { IfErr result (λ fault. fault ≢ DescriptionFault.Memory → DescribesNone limits rules.now) }
    ensures fault { IfErr result (IsRefusedAs limits rules.now) }
{
    match pack(alloc, loaded(alloc, limits, rules)?) {
        Ok(game) => Ok(game),
        Err((_, refused)) => Err(DescriptionFault::from(refused)),
    }
}
