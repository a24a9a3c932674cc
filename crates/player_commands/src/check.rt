//! Checks a player: plays a match for each role of a game, and watches the player in each match.
ghost use Rattle.std.specs.Prelude.{◌≡◌, ◌≢◌, ◌<◌, ◌++◌, ℕ, List, Err, IfErr, IfOk, OnOk, option_copied};
ghost use Rattle.game_core.specs.Counting.{one_more};
ghost use Rattle.player_commands.specs.Checks.{AreTurnsIn, EndsEarly, IsToldOf, WritesCheck};
ghost use Rattle.player_commands.specs.Rows.{bad_answers, later_turns, next_turn};
ghost use Rattle.player_commands.specs.Seats.{IsPlanFor, nobody};
ghost use Rattle.player_commands.specs.Tables.{AreRows};
ghost use Rattle.player_commands.specs.declared.check.CheckFault.TheVariants as faults;

use crate::role_turns::RoleTurn;
use crate::table::{HEADER, Row, fault_words, row_verdict};
use crate::watched::{CheckReach, CheckedPlayer, Exchanges};
use game_core::{Counted, Game};
use match_messages::Player;
use match_plans::{CheckPlan, MatchPlan, PlayerAddress, Reach, ReportsShortages};
use match_play::{MatchFault, PlayableGame, PreparedMatch, prepared_match, told_match};
use network_players::{Explains, RoundSignal};
use packed_rules::PackedGame;
use std::alloc::{AllocError, AllocFailed, Global};
use std::io::Write;
use std::sync::{Mutex, Wait};
use std::thread::Threads;
use std::time::Clock;
use thiserror::Error;
use whole_streams::{WriteFault, write_all};

/// Why a check ended early. The table contains the rows of the earlier matches and, after a write error, part of the rows
/// of the last match.
#[derive(Clone, Copy, Debug, PartialEq, Eq, Error)]
pub enum CheckFault {
    /// A match ended without a result, for this reason.
    #[error("{0}")]
    Match(MatchFault),
    /// The table cannot be written.
    #[error("write fault")]
    WriteFault,
    #[error("out of memory")]
    Memory,
}

impl From<AllocError> for CheckFault {
    ghost from_gives = { λ _ fault. fault ≡ faults.Memory };

    fn from(_: AllocError) -> CheckFault {
        CheckFault::Memory
    }
}

impl<T: Drop> From<AllocFailed<T>> for CheckFault {
    ghost from_gives = { λ _ fault. fault ≡ faults.Memory };

    fn from(_: AllocFailed<T>) -> CheckFault {
        CheckFault::Memory
    }
}

impl From<MatchFault> for CheckFault {
    ghost from_gives = { λ given fault. fault ≡ faults.Match given };

    fn from(fault: MatchFault) -> CheckFault {
        CheckFault::Match(fault)
    }
}

impl From<WriteFault> for CheckFault {
    ghost from_gives = { λ _ fault. fault ≡ faults.WriteFault };

    fn from(_: WriteFault) -> CheckFault {
        CheckFault::WriteFault
    }
}

/// The name of the players that answer nothing.
const NOBODY: &str = "nobody";

/// The player with this index, in the match that checks `player` in this role.
fn seated<'a>(player: PlayerAddress<'a>, role: usize, place: usize) -> PlayerAddress<'a>
    ensures player { place ≡ role → result ≡ player.entry }
    ensures other { place ≢ role → result.name.now ≡ nobody }
{
    if place == role {
        player
    } else {
        PlayerAddress {
            name: NOBODY,
            host: "",
            port: 0,
        }
    }
}

/// The plan of the match that checks the player in this role, in a game with this many roles.
fn match_plan<'a>(
    alloc: Global,
    plan: &CheckPlan<'a>,
    id: &'a str,
    role: usize,
    roles: usize,
) -> Result<MatchPlan<'a>, AllocError>
    ensures { IfOk result (IsPlanFor plan.now id.entry.now role roles) }
{
    let mut players = Vec::with_capacity(alloc, roles)?;
    for place in 0..roles {
        players.push(seated(plan.player, role, place))?;
    }
    Ok(MatchPlan {
        id,
        start: plan.start,
        play: plan.play,
        strikes: plan.strikes,
        players,
    })
}

/// The turn of the next exchange, and the turns of the later exchanges. Only an exchange that asks for a move has a
/// turn.
fn next_turn(is_play: bool, turns: &[RoleTurn]) -> (Option<&RoleTurn>, &[RoleTurn])
    ensures turn { option_copied result.0 ≡ next_turn is_play turns.now }
    ensures later { result.1.now ≡ later_turns is_play turns.now }
{
    match turns {
        [turn, later @ ..] if is_play => (Some(turn), later),
        _ => (None, turns),
    }
}

/// Appends a row to the table for each exchange. The turns belong to the exchanges that ask for a move, in order.
/// Returns the number of bad answers.
fn push_rows<'a>(
    alloc: Global,
    table: &mut Vec<u8>,
    role: &'a [u8],
    exchanges: &'a Exchanges,
    turns: &'a [RoleTurn],
) -> Result<u64, AllocError>
    ensures bad { IfOk result (λ bad. bad ≡ bad_answers exchanges.now.items.items turns.now) }
    ensures rows { OnOk result ((text : List ℕ) × AreRows role.now exchanges.now.items.items turns.now text × (table.new.items ≡ table.old.items ++ text)) }
{
    if exchanges.is_cut {
        return Err(AllocError);
    }
    let mut bad: u64 = 0;
    let mut left = turns;
    for exchange in &exchanges.items {
        let (turn, later) = next_turn(exchange.is_play, left);
        left = later;
        let verdict = row_verdict(exchange, turn);
        let words = fault_words(alloc, exchange, turn, verdict)?;
        let row = Row {
            role,
            exchange,
            turn,
            words: words.as_str(),
        };
        bad = bad.saturating_add(u64::from(!verdict.is_good()));
        table.extend_from_slice(format!(in alloc; "{row}")?.as_bytes())?;
    }
    Ok(bad)
}

/// Plays the match that checks the player in this role, and appends its rows to the table. Returns the number of bad
/// answers.
fn check_role<H, S>(
    alloc: Global,
    watching: &CheckReach<'_, H, S>,
    plan: &CheckPlan<'_>,
    game: PlayableGame<'_>,
    table: &mut Vec<u8>,
) -> Result<u64, CheckFault>
where
    H: Clock + Threads + Wait + Sync,
    S: Reach + ReportsShortages,
    S::Player: Player + Explains + Drop + Send,
    requires { watching.now.role < (⟦<PackedGame as Game>⟧.rules game.game.now).roles }
    ensures told { IfOk result (λ bad. (rows : List ℕ) × IsToldOf (AreTurnsIn H (S.is_reached watching.now.reach.now) S.Player.handed game.entry plan.now watching.now.role) ((⟦<PackedGame as Game>⟧.rules game.entry.game.now).role_name watching.now.role) rows bad
        × (table.new.items ≡ table.old.items ++ rows)) }
    ensures clear { OnOk result (S.is_clear watching.now.reach.now 0) }
    ensures others { IfErr result (λ fault. fault ≢ faults.WriteFault) }
{
    let CheckReach {
        rt,
        role,
        exchanges,
        ..
    } = *watching;
    let id = format!(in alloc; "check-{role}")?;
    let match_plan = match_plan(alloc, plan, id.as_str(), role, game.game.roles())?;
    let prepared: PreparedMatch<CheckedPlayer<'_, H, S::Player>> = prepared_match(
        alloc,
        watching,
        game,
        0,
        &match_plan,
    )?;
    let turns = told_match(rt, alloc, watching, prepared, game, watching)?;
    let exchanges = exchanges.lock(rt);
    Ok(push_rows(alloc, table, game.game.role_name(role), &exchanges, &turns)?)
}

/// Plays a match for each role of the game, one after another. After each match, writes a row for each message to the player. Returns
/// the number of bad answers.
pub fn check_player<H, S, W: Write>(
    rt: &H,
    alloc: Global,
    reach: &S,
    plan: &CheckPlan<'_>,
    game: PlayableGame<'_>,
    writer: &mut Counted<W>,
) -> Result<u64, CheckFault>
where
    H: Clock + Threads + Wait + Sync,
    S: Reach + ReportsShortages,
    S::Player: Player + Explains + Drop + Send,
    ensures table { IfOk result (λ bad. WritesCheck H (S.is_reached reach.now) S.Player.handed game.entry plan.now bad (W.contents writer.old.stream) (W.contents writer.new.stream)) }
    ensures clear { OnOk result (S.is_clear reach.now 0) }
    ensures early { IfErr result (λ fault. EndsEarly H (S.is_reached reach.now) S.Player.handed game.entry plan.now fault (W.contents writer.old.stream) (W.contents writer.new.stream)) }
    ensures written { OnOk result (writer.new.faults ≡ writer.old.faults) }
    ensures failed { result ≡ Err faults.WriteFault → writer.new.faults ≡ one_more writer.old.faults }
    ensures others { IfErr result (λ fault. fault ≢ faults.WriteFault → writer.new.faults ≡ writer.old.faults) }
{
    let mut table = Vec::new(alloc);
    table.extend_from_slice(HEADER)?;
    let mut bad: u64 = 0;
    for role in 0..game.game.roles() {
        let signal = RoundSignal::new();
        let exchanges = Mutex::new(Exchanges::new(alloc));
        let watching = CheckReach {
            rt,
            reach,
            role,
            signal: &signal,
            exchanges: &exchanges,
        };
        let more = check_role(alloc, &watching, plan, game, &mut table)?;
        bad = bad.saturating_add(more);
        write_all(writer, &table)?;
        table.clear();
    }
    Ok(bad)
}
