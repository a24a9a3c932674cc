//! Checks whether a text can be the record of a match of a game.
ghost use Rattle.std.specs.Prelude.{◌≢◌, IfErr, IfOk, OnOk};
ghost use Rattle.serde_json.specs.Data.{Data};
ghost use Rattle.record_reading.specs.LawfulRecord.{IsJson, IsLawfulRecord};
ghost use Rattle.record_reading.specs.RecordTree.{HasShape, Holds};
ghost use Rattle.record_check.specs.Verified.{FailsFirst};
ghost use Rattle.record_reading.specs.declared.verify_fault.VerifyFault.TheVariants.{Memory};

use crate::replaying::replay_record;
use game_core::Game;
use record_reading::{RecordParts, VerifyFault, read_record};
use std::alloc::Global;

/// The values of a record, if `verify` would accept it.
pub fn lawful_parts<G: Game>(
    alloc: Global,
    game: &G,
    text: &[u8],
) -> Result<RecordParts, VerifyFault>
    ensures lawful { OnOk result (IsLawfulRecord (G.rules game.now) text.now) }
    ensures parts { IfOk result (λ p. (tree : Data) × IsJson text.now tree × Holds tree p × HasShape (G.rules game.now) p) }
    ensures refused { IfErr result (λ fault. fault ≢ Memory → ¬ IsLawfulRecord (G.rules game.now) text.now) }
    ensures first { IfErr result (FailsFirst (G.rules game.now) text.now) }
{
    let parts = read_record(alloc, game, text)?;
    match replay_record(alloc, game, &parts) {
        Ok(()) => Ok(parts),
        Err(fault) => Err(fault),
    }
}

/// Checks a record against the game. `Ok` means that some lawful match of this game has this record: each recorded move was
/// legal, each state is the one that the moves lead to, and the goals are the game's. It does not mean that a player ever
/// sent the recorded answers. Further keys of the object are ignored.
pub fn verify<G: Game>(alloc: Global, game: &G, text: &[u8]) -> Result<(), VerifyFault>
    ensures lawful { OnOk result (IsLawfulRecord (G.rules game.now) text.now) }
    ensures refused { IfErr result (λ fault. fault ≢ Memory → ¬ IsLawfulRecord (G.rules game.now) text.now) }
    ensures first { IfErr result (FailsFirst (G.rules game.now) text.now) }
{
    match lawful_parts(alloc, game, text) {
        Ok(_) => Ok(()),
        Err(fault) => Err(fault),
    }
}
