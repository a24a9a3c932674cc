//! The task that a command line asks for.
ghost use Rattle.std.specs.Prelude.{◌≤◌};

use match_plans::{CheckPlan, GameSource, GameTask, MatchPlan, PlayerAddress, SeasonForm};

/// A task for the program. The texts borrow from the command line.
#[derive(Drop)]
pub enum Task<'a> {
    /// Runs a command on one game, without players.
    Game(GameRequest<'a>),
    /// Plays matches of a game, or checks a player with it.
    Host(GameOptions<'a>, MatchTask<'a>),
    /// Asks a player whether it is available.
    Info(InfoPlan<'a>),
    /// Sends ABORT to players.
    Abort(AbortPlan<'a>),
    /// Answers clients that make calls on a desk over connections.
    Serve(ServicePlan<'a>),
    /// Prints the help or the version.
    Show(String),
}

/// A command on one game, with its output format.
#[derive(Clone, Copy)]
pub struct GameRequest<'a> {
    pub task: GameTask<'a>,
    /// Whether `verify` and `replay` print their verdict as JSON.
    pub is_json: bool,
    /// Whether `desk` answers each line before it reads the next one.
    pub is_interactive: bool,
}

/// How to serve a desk over connections.
#[derive(Drop)]
pub struct ServicePlan<'a> {
    /// `HOST:PORT` or `unix:PATH`.
    pub address: &'a str,
    /// The number of lines of the desk, which is the largest number of simultaneous connections.
    pub lines: u32,
    ghost few: { (1 ≤ lines) × (lines ≤ 64) },
    /// The games of the desk, by their numbers.
    pub games: Vec<GameSource<'a>>,
    /// The file for the call log, which must not exist.
    pub history: Option<&'a str>,
    /// The file that the records are appended to.
    pub records: Option<&'a str>,
}

/// The player that gets INFO, and whether to print its answer as JSON.
#[derive(Clone, Copy)]
pub struct InfoPlan<'a> {
    pub player: PlayerAddress<'a>,
    pub is_json: bool,
}

/// A task that plays matches of a game.
#[derive(Drop)]
pub enum MatchTask<'a> {
    /// Referees a match between players on the network.
    Run(RunPlan<'a>),
    /// Referees the matches of a schedule.
    Season(SeasonPlan<'a>),
    /// Checks a player.
    Check(CheckPlan<'a>),
}

/// The options about the game: its source, the file with the rules that players get instead of the game's own rules,
/// and the log file.
#[derive(Clone, Copy)]
pub struct GameOptions<'a> {
    pub game: GameSource<'a>,
    pub player_rules: Option<&'a str>,
    /// A dash means standard error. Without a file, the program logs nothing.
    pub log: Option<&'a str>,
}

/// The match to play, and whether to print its call log too.
#[derive(Drop)]
pub struct RunPlan<'a> {
    pub plan: MatchPlan<'a>,
    pub has_history: bool,
}

/// How to play the matches of a schedule.
#[derive(Clone, Copy)]
pub struct SeasonPlan<'a> {
    pub strikes: u8,
    pub form: SeasonForm,
    /// `None` means standard input.
    pub schedule: Option<&'a str>,
    /// A file of records. `season` does not play the matches of these records again.
    pub done: Option<&'a str>,
    /// A file for the records. `season` appends them to it instead of printing them. `season` does not play the matches
    /// of the file's records again.
    pub records: Option<&'a str>,
}

/// The id of the match to abort, the players that take part in it, and whether to print the answers as JSON.
#[derive(Drop)]
pub struct AbortPlan<'a> {
    pub id: &'a str,
    pub players: Vec<PlayerAddress<'a>>,
    pub is_json: bool,
}
