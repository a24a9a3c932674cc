//! Reads the command line.
ghost use Rattle.std.specs.Prelude.{◌≤◌, IfOk};

use crate::program::program;
use crate::tasks::{
    AbortPlan, GameOptions, GameRequest, InfoPlan, MatchTask, RunPlan, SeasonPlan, ServicePlan,
    Task,
};
use clap::ArgMatches;
use clap::error::ErrorKind;
use game_core::Limits;
use match_plans::{
    CheckPlan, GameCommand, GameSource, GameTask, MAX_AT_ONCE, MatchPlan, PlayerAddress,
    RecordOrder, RulesSource, SeasonForm, decimal, player_address,
};
use std::alloc::{AllocError, AllocFailed, Global};

/// Why a value on a well-formed command line is invalid.
#[derive(Clone, Copy)]
pub enum WrongValue<'a> {
    /// The options do not name exactly one source of the game.
    Game,
    /// The value of the option is not a number from `least` to `limit`.
    Number {
        option: &'static str,
        value: &'a str,
        least: u64,
        limit: u64,
    },
    /// The argument is not `NAME@HOST:PORT` with a valid name and port.
    Player(&'a str),
}

/// Why a command line is refused.
#[derive(Clone, Copy)]
pub enum ArgumentFault<'a> {
    /// `clap` does not accept the arguments.
    Form,
    /// The value of an option or argument is invalid.
    Value(WrongValue<'a>),
    /// Out of memory.
    Memory,
}

impl From<AllocError> for ArgumentFault<'_> {
    ghost use Rattle.std.specs.Prelude.{◌≡◌};
    ghost use Rattle.command_line.specs.declared.arguments.ArgumentFault.TheVariants.{Memory};

    ghost from_gives = { λ _ fault. fault ≡ Memory };

    fn from(_: AllocError) -> Self {
        ArgumentFault::Memory
    }
}

impl<T: Drop> From<AllocFailed<T>> for ArgumentFault<'_> {
    ghost use Rattle.std.specs.Prelude.{◌≡◌};
    ghost use Rattle.command_line.specs.declared.arguments.ArgumentFault.TheVariants.{Memory};

    ghost from_gives = { λ _ fault. fault ≡ Memory };

    fn from(_: AllocFailed<T>) -> Self {
        ArgumentFault::Memory
    }
}

impl<'a> From<WrongValue<'a>> for ArgumentFault<'a> {
    ghost use Rattle.std.specs.Prelude.{◌≡◌};
    ghost use Rattle.command_line.specs.declared.arguments.ArgumentFault.TheVariants.{Value};

    ghost from_gives = { λ wrong fault. fault ≡ Value wrong };

    fn from(wrong: WrongValue<'a>) -> ArgumentFault<'a> {
        ArgumentFault::Value(wrong)
    }
}

/// The value of an option as a number. It must be from `least` to `limit`.
fn number<'a>(
    found: &ArgMatches<'a>,
    option: &'static str,
    least: u64,
    limit: u64,
) -> Result<u64, WrongValue<'a>>
    ensures { IfOk result (λ number. (least ≤ number) × (number ≤ limit)) }
{
    let value = found.get_str(option).unwrap_or("");
    match decimal(value, limit) {
        Some(number) if number >= least => Ok(number),
        _ => Err(WrongValue::Number {
            option,
            value,
            least,
            limit,
        }),
    }
}

/// The value of an option in seconds. A later check decides whether a clock can have this value.
fn seconds<'a>(found: &ArgMatches<'a>, option: &'static str) -> Result<u32, WrongValue<'a>> {
    Ok(number(found, option, 0, 4_294_967_295)? as u32)
}

/// The number of consecutive replaced moves that retire a role.
fn strikes<'a>(found: &ArgMatches<'a>) -> Result<u8, WrongValue<'a>> {
    Ok(number(found, "strikes", 0, 255)? as u8)
}

fn limits(found: &ArgMatches<'_>) -> Limits {
    if found.get_flag("large") {
        Limits::Large
    } else {
        Limits::Usual
    }
}

/// The game's source. The command line must contain exactly one option that names a source.
fn game_source<'a>(found: &ArgMatches<'a>) -> Result<GameSource<'a>, WrongValue<'a>> {
    let limits = limits(found);
    let size = found.get_str("countdown");
    match (size, found.get_str("rules"), found.get_str("rules-file")) {
        (Some(_), None, None) => {
            let size = number(found, "countdown", 1, 100)?;
            Ok(GameSource::Countdown(size as u8))
        }
        (None, Some(text), None) => Ok(GameSource::Described(RulesSource::Text(text), limits)),
        (None, None, Some(path)) => Ok(GameSource::Described(RulesSource::File(path), limits)),
        _ => Err(WrongValue::Game),
    }
}

fn player(word: &str) -> Result<PlayerAddress<'_>, WrongValue<'_>> {
    player_address(word).ok_or(WrongValue::Player(word))
}

fn only_player<'a>(found: &ArgMatches<'a>) -> Result<PlayerAddress<'a>, WrongValue<'a>> {
    player(found.get_str("player").unwrap_or(""))
}

/// The input file, or `None` for standard input. A dash also means standard input.
fn input_file<'a>(found: &ArgMatches<'a>) -> Option<&'a str> {
    match found.get_str("file") {
        Some("-") => None,
        file => file,
    }
}

fn game_task<'a>(command: GameCommand, found: &ArgMatches<'a>) -> Result<Task<'a>, WrongValue<'a>> {
    let task = GameTask {
        command,
        game: game_source(found)?,
        file: input_file(found),
    };
    Ok(Task::Game(GameRequest {
        task,
        is_json: found.get_flag("json"),
        is_interactive: found.get_flag("interactive"),
    }))
}

fn verify_command(found: &ArgMatches<'_>) -> GameCommand {
    if found.get_flag("lines") {
        GameCommand::VerifyLines
    } else {
        GameCommand::Verify
    }
}

fn game_options<'a>(found: &ArgMatches<'a>) -> Result<GameOptions<'a>, WrongValue<'a>> {
    Ok(GameOptions {
        game: game_source(found)?,
        player_rules: found.get_str("player-rules"),
        log: found.get_str("log"),
    })
}

fn record_order(found: &ArgMatches<'_>) -> RecordOrder {
    if found.get_flag("in-order") {
        RecordOrder::OfSchedule
    } else {
        RecordOrder::OfEnds
    }
}

fn season_plan<'a>(found: &ArgMatches<'a>) -> Result<SeasonPlan<'a>, WrongValue<'a>> {
    let strikes = strikes(found)?;
    let at_once = number(found, "at-once", 1, MAX_AT_ONCE as u64)? as usize;
    let concurrent = number(found, "concurrent", 1, MAX_AT_ONCE as u64)? as usize;
    Ok(SeasonPlan {
        strikes,
        form: SeasonForm {
            at_once,
            concurrent,
            order: record_order(found),
            has_history: found.get_flag("history"),
        },
        schedule: input_file(found),
        done: found.get_str("done"),
        records: found.get_str("records"),
    })
}

fn check_plan<'a>(found: &ArgMatches<'a>) -> Result<CheckPlan<'a>, WrongValue<'a>> {
    Ok(CheckPlan {
        start: seconds(found, "start")?,
        play: seconds(found, "play")?,
        strikes: strikes(found)?,
        player: only_player(found)?,
    })
}

fn players<'a>(
    alloc: Global,
    found: &ArgMatches<'a>,
) -> Result<Vec<PlayerAddress<'a>>, ArgumentFault<'a>> {
    let mut players = Vec::new(alloc);
    for word in found.get_strs("players").unwrap_or(&[]) {
        players.push(player(word)?)?;
    }
    Ok(players)
}

fn run_plan<'a>(alloc: Global, found: &ArgMatches<'a>) -> Result<RunPlan<'a>, ArgumentFault<'a>> {
    Ok(RunPlan {
        plan: MatchPlan {
            id: found.get_str("id").unwrap_or(""),
            start: seconds(found, "start")?,
            play: seconds(found, "play")?,
            strikes: strikes(found)?,
            players: players(alloc, found)?,
        },
        has_history: found.get_flag("history"),
    })
}

fn info_plan<'a>(found: &ArgMatches<'a>) -> Result<InfoPlan<'a>, WrongValue<'a>> {
    Ok(InfoPlan {
        player: only_player(found)?,
        is_json: found.get_flag("json"),
    })
}

fn abort_plan<'a>(
    alloc: Global,
    found: &ArgMatches<'a>,
) -> Result<AbortPlan<'a>, ArgumentFault<'a>> {
    Ok(AbortPlan {
        id: found.get_str("id").unwrap_or(""),
        players: players(alloc, found)?,
        is_json: found.get_flag("json"),
    })
}

/// The task of a command that plays or checks matches. The error is `Form` for any other command.
fn hosted_task<'a>(
    alloc: Global,
    name: &str,
    found: &ArgMatches<'a>,
) -> Result<MatchTask<'a>, ArgumentFault<'a>> {
    match name {
        "run" => Ok(MatchTask::Run(run_plan(alloc, found)?)),
        "season" => Ok(MatchTask::Season(season_plan(found)?)),
        "check" => Ok(MatchTask::Check(check_plan(found)?)),
        _ => Err(ArgumentFault::Form),
    }
}

/// The task of `desk`: a script of calls on a desk with one game, or a desk that listens and may have several games,
/// one for each file.
fn desk_task<'a>(alloc: Global, found: &ArgMatches<'a>) -> Result<Task<'a>, ArgumentFault<'a>> {
    let files = found.get_strs("rules-file").unwrap_or(&[]);
    let Some(address) = found.get_str("listen") else {
        if files.len() > 1 {
            return Err(ArgumentFault::Value(WrongValue::Game));
        }
        return Ok(game_task(GameCommand::Desk, found)?);
    };
    let lines = match found.get_str("lines") {
        Some(_) => number(found, "lines", 1, 64)? as u32,
        None => 8,
    };
    let first = game_source(found)?;
    let mut games = Vec::with_capacity(alloc, 1 + files.len())?;
    games.push(first)?;
    for path in files.iter().skip(1) {
        games.push(GameSource::Described(RulesSource::File(*path), limits(found)))?;
    }
    Ok(Task::Serve(ServicePlan {
        address,
        lines,
        games,
        history: found.get_str("history"),
        records: found.get_str("records"),
    }))
}

fn task<'a>(
    alloc: Global,
    name: &str,
    found: &ArgMatches<'a>,
) -> Result<Task<'a>, ArgumentFault<'a>> {
    match name {
        "desk" => desk_task(alloc, found),
        "verify" => Ok(game_task(verify_command(found), found)?),
        "replay" => Ok(game_task(GameCommand::Replay, found)?),
        "info" => Ok(Task::Info(info_plan(found)?)),
        "abort" => Ok(Task::Abort(abort_plan(alloc, found)?)),
        _ => {
            let hosting = game_options(found)?;
            Ok(Task::Host(hosting, hosted_task(alloc, name, found)?))
        }
    }
}

/// The task or the error for a `clap` error. `clap` also returns the help and the version as errors.
fn shown<'a>(alloc: Global, error: clap::Error) -> Result<Task<'a>, ArgumentFault<'a>> {
    if !error.use_stderr() {
        return Ok(Task::Show(error.to_string(alloc)?));
    }
    match error.kind() {
        ErrorKind::OutOfMemory => Err(ArgumentFault::Memory),
        _ => Err(ArgumentFault::Form),
    }
}

/// Reads the arguments after the program's name.
pub fn read_arguments<'a>(
    alloc: Global,
    arguments: &'a [&'a str],
) -> Result<Task<'a>, ArgumentFault<'a>> {
    match program(alloc)?.try_get_matches_from(arguments) {
        Ok(found) => match found.subcommand() {
            Some((name, found)) => task(alloc, name, found),
            None => Err(ArgumentFault::Form),
        },
        Err(error) => shown(alloc, error),
    }
}
