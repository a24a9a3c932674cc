//! The source of a game, and the commands on a game that need no players.

use game_core::Limits;

/// The source of a ground description.
#[derive(Clone, Copy)]
pub enum RulesSource<'a> {
    /// The description itself.
    Text(&'a str),
    /// The path of a file. A relative path starts at the program's working directory.
    File(&'a str),
}

/// The source of a game.
#[derive(Clone, Copy)]
pub enum GameSource<'a> {
    /// Countdown with a heap of this size. The size may be out of range.
    Countdown(u8),
    /// The game of a ground description within these limits.
    Described(RulesSource<'a>, Limits),
}

/// A command on one game, without players. It uses standard input and output.
#[derive(Clone, Copy)]
pub enum GameCommand {
    /// Answers a script.
    Desk,
    /// Checks a record.
    Verify,
    /// Checks each text line as a record.
    VerifyLines,
    /// Replays a call log.
    Replay,
}

/// A command, the source of its game, and the path of its input. Without a path, the command reads standard input.
#[derive(Clone, Copy)]
pub struct GameTask<'a> {
    pub command: GameCommand,
    pub game: GameSource<'a>,
    pub file: Option<&'a str>,
}
