//! The commands of the program, with their options and help.

use clap::{Arg, ArgAction, Command};
use std::alloc::{AllocError, Global};

/// The version that `--version` prints.
pub const VERSION: &str = "0.3.0";

/// The program's name in its usage.
pub const PROGRAM: &str = "ggp_manager";

/// How an argument is written on the command line.
#[derive(Clone, Copy)]
enum Form {
    /// An optional option. The help shows this name for its value.
    Value(&'static str),
    /// A required option, with the name of its value.
    Required(&'static str),
    /// An optional option, with the name and the default of its value.
    Default(&'static str, &'static str),
    /// An option that may be given any number of times, with the name of its value.
    Repeated(&'static str),
    /// The address of a desk that listens.
    Listen,
    /// An optional option of a desk that listens, with the name of its value.
    OfListen(&'static str),
    Flag,
    /// A positional argument with this name.
    Word(&'static str),
    /// The input file. Without it the command reads standard input.
    File,
    Player,
    Players,
}

#[derive(Clone, Copy)]
struct Argument {
    name: &'static str,
    form: Form,
    help: &'static str,
}

impl Argument {
    /// Builds the argument for `clap`.
    fn arg<'a>(self, alloc: Global) -> Result<Arg<'a>, AllocError> {
        let arg = Arg::new(alloc, self.name).help(self.help);
        let place = "NAME@HOST:PORT";
        Ok(match self.form {
            Form::Value(value) => arg.long(self.name).value_name(value).action(ArgAction::Set),
            Form::Repeated(value) => arg
                .long(self.name)
                .value_name(value)
                .action(ArgAction::Append),
            Form::Listen => arg
                .long(self.name)
                .value_name("ADDRESS")
                .action(ArgAction::Set)
                .conflicts_with("interactive")?
                .conflicts_with("file")?,
            Form::OfListen(value) => arg
                .long(self.name)
                .value_name(value)
                .action(ArgAction::Set)
                .requires_arg("listen")?,
            Form::Required(value) => arg
                .long(self.name)
                .value_name(value)
                .action(ArgAction::Set)
                .required(true),
            Form::Default(value, default) => arg
                .long(self.name)
                .value_name(value)
                .action(ArgAction::Set)
                .default_value(default),
            Form::Flag => arg.long(self.name).action(ArgAction::SetTrue),
            Form::Word(word) => arg.value_name(word).required(true).action(ArgAction::Set),
            Form::File => arg.value_name("FILE").action(ArgAction::Set),
            Form::Player => arg.value_name(place).required(true).action(ArgAction::Set),
            Form::Players => arg
                .value_name(place)
                .required(true)
                .num_args(1..)
                .action(ArgAction::Append),
        })
    }
}

const COUNTDOWN: Argument = Argument {
    name: "countdown",
    form: Form::Value("N"),
    help: "Play Countdown with a heap of N (1 to 100), instead of --rules or --rules-file",
};

const RULES: Argument = Argument {
    name: "rules",
    form: Form::Value("TEXT"),
    help: "Play the game of this ground GDL text",
};

const RULES_FILE: Argument = Argument {
    name: "rules-file",
    form: Form::Value("FILE"),
    help: "Play the game of the ground GDL file FILE",
};

const PLAYER_RULES: Argument = Argument {
    name: "player-rules",
    form: Form::Value("FILE"),
    help: "Send players the GDL of FILE in START, for example rules with variables; the referee plays by the game's own rules",
};

const LARGE: Argument = Argument {
    name: "large",
    form: Form::Flag,
    help: "Accept a large game: at most 16777216 bytes, 262144 sentences and 262144 different atomic sentences",
};

const STRIKES: Argument = Argument {
    name: "strikes",
    form: Form::Default("K", "0"),
    help: "Stop asking a player for moves after K replaced moves in a row; 0 means never",
};

const START: Argument = Argument {
    name: "start",
    form: Form::Default("S", "10"),
    help: "The start clock, in seconds",
};

const PLAY: Argument = Argument {
    name: "play",
    form: Form::Default("S", "10"),
    help: "The play clock, in seconds; it also covers STOP, ABORT and INFO",
};

const LOG: Argument = Argument {
    name: "log",
    form: Form::Value("FILE"),
    help: "Add every message and its answer to FILE, one JSON object per line; with -, write them to standard error",
};

const WHY: Argument = Argument {
    name: "why",
    form: Form::Flag,
    help: "Print the reason on standard error even if it is not a terminal; exit status 1 then means a negative answer, 2 any other error",
};

const JSON: Argument = Argument {
    name: "json",
    form: Form::Flag,
    help: "Print the verdict as a JSON object; this option includes --why",
};

const PLAYER: Argument = Argument {
    name: "player",
    form: Form::Player,
    help: "The player to ask",
};

const DESK: [Argument; 7] = [
    COUNTDOWN,
    RULES,
    Argument {
        name: "rules-file",
        form: Form::Repeated("FILE"),
        help: "Play the game of the ground GDL file FILE",
    },
    LARGE,
    WHY,
    Argument {
        name: "interactive",
        form: Form::Flag,
        help: "Answer each line of the script before reading the next, for a program that talks to the desk over a pipe",
    },
    Argument {
        name: "file",
        form: Form::File,
        help: "The script; standard input if it is missing or -",
    },
];

/// The options of `desk` for a desk that listens. They are not in `DESK`, because the prover limits the size of `COMMANDS`.
static LISTEN: [Argument; 4] = [
    Argument {
        name: "listen",
        form: Form::Listen,
        help: "Answer clients that connect to HOST:PORT or unix:PATH, until standard input ends; give --rules-file once for each game",
    },
    Argument {
        name: "lines",
        form: Form::OfListen("N"),
        help: "How many clients may be connected at once (1 to 64) [default: 8]",
    },
    Argument {
        name: "history",
        form: Form::OfListen("FILE"),
        help: "At the end write the call log to a new file FILE",
    },
    Argument {
        name: "records",
        form: Form::OfListen("FILE"),
        help: "At the end add the records to FILE",
    },
];

fn listen_arguments() -> &'static [Argument] {
    &LISTEN
}

const RUN: [Argument; 12] = [
    RULES,
    RULES_FILE,
    LARGE,
    PLAYER_RULES,
    Argument {
        name: "id",
        form: Form::Required("ID"),
        help: "The match id",
    },
    START,
    PLAY,
    STRIKES,
    LOG,
    WHY,
    Argument {
        name: "history",
        form: Form::Flag,
        help: "Print the call log of the match after its record",
    },
    Argument {
        name: "players",
        form: Form::Players,
        help: "The players, in role order",
    },
];

const SEASON: [Argument; 15] = [
    COUNTDOWN,
    RULES,
    RULES_FILE,
    LARGE,
    PLAYER_RULES,
    STRIKES,
    Argument {
        name: "at-once",
        form: Form::Default("N", "16"),
        help: "Maximum number of simultaneous matches (1 to 1024)",
    },
    Argument {
        name: "concurrent",
        form: Form::Default("N", "1"),
        help: "Maximum number of simultaneous matches of one player (1 to 1024)",
    },
    Argument {
        name: "in-order",
        form: Form::Flag,
        help: "Print the records in schedule order",
    },
    Argument {
        name: "done",
        form: Form::Value("FILE"),
        help: "Skip the matches that have a lawful record in FILE",
    },
    Argument {
        name: "records",
        form: Form::Value("FILE"),
        help: "Add the records to FILE, and skip the matches that have one there; to resume after a stop, run the same command again",
    },
    LOG,
    WHY,
    Argument {
        name: "history",
        form: Form::Flag,
        help: "Print the call log of each match after its record",
    },
    Argument {
        name: "file",
        form: Form::File,
        help: "The schedule; standard input if it is missing or -",
    },
];

const VERIFY: [Argument; 8] = [
    COUNTDOWN,
    RULES,
    RULES_FILE,
    LARGE,
    WHY,
    JSON,
    Argument {
        name: "lines",
        form: Form::Flag,
        help: "Check each line of the input as a record, and print one line for each",
    },
    Argument {
        name: "file",
        form: Form::File,
        help: "The record; standard input if it is missing or -",
    },
];

const REPLAY: [Argument; 7] = [
    COUNTDOWN,
    RULES,
    RULES_FILE,
    LARGE,
    WHY,
    JSON,
    Argument {
        name: "file",
        form: Form::File,
        help: "The call log; standard input if it is missing or -",
    },
];

const INFO: [Argument; 3] = [WHY, JSON, PLAYER];

const ABORT: [Argument; 4] = [
    WHY,
    JSON,
    Argument {
        name: "id",
        form: Form::Word("ID"),
        help: "The match id",
    },
    Argument {
        name: "players",
        form: Form::Players,
        help: "The players",
    },
];

const CHECK: [Argument; 11] = [
    COUNTDOWN,
    RULES,
    RULES_FILE,
    LARGE,
    PLAYER_RULES,
    START,
    PLAY,
    STRIKES,
    LOG,
    WHY,
    PLAYER,
];

/// A command as data. `command` builds the `Command` of `clap` from it.
#[derive(Clone, Copy)]
pub struct CommandForm {
    name: &'static str,
    about: &'static str,
    arguments: &'static [Argument],
    /// The end of the help: how to combine the arguments, an example, and the exit statuses.
    notes: &'static str,
}

fn with_arguments<'a>(
    alloc: Global,
    mut command: Command<'a>,
    arguments: &[Argument],
) -> Result<Command<'a>, AllocError> {
    for argument in arguments {
        command = command.arg(argument.arg(alloc)?)?;
    }
    Ok(command)
}

impl CommandForm {
    /// Builds the command for `clap`.
    pub fn command<'a>(self, alloc: Global) -> Result<Command<'a>, AllocError> {
        let command = Command::new(alloc, self.name)
            .about(self.about)
            .after_help(self.notes);
        let command = with_arguments(alloc, command, self.arguments)?;
        if self.name == "desk" {
            with_arguments(alloc, command, listen_arguments())
        } else {
            Ok(command)
        }
    }
}

static COMMANDS: [CommandForm; 8] = [
    CommandForm {
        name: "desk",
        about: "Runs a script of calls, and prints the replies and the records",
        arguments: &DESK,
        notes: concat!(
            "Example: ggp_manager desk --countdown 3 match.script\n\n",
            "status 0: every line is a valid call. 1: a line is invalid, or another error occurred. ",
            "2: usage error. 3: out of memory. With --why, 2: any error except an invalid line.",
        ),
    },
    CommandForm {
        name: "run",
        about: "Referees one match over HTTP, and prints its record",
        arguments: &RUN,
        notes: concat!(
            "Example: ggp_manager run --rules-file game.kif --id m1 ann@127.0.0.1:9147 bob@127.0.0.1:9148 > m1.record\n\n",
            "status 0: the match has finished or was aborted. 1: an error. ",
            "2: usage error. 3: out of memory. With --why, 2: any error.",
        ),
    },
    CommandForm {
        name: "season",
        about: "Referees the matches of a schedule, many at once, and prints their records",
        arguments: &SEASON,
        notes: concat!(
            "A line of the schedule: ID START PLAY NAME@HOST:PORT .. - the match id, the two clocks in seconds, and one player for each role. Empty lines and lines that begin with # are skipped. With --records, no record is printed.\n\n",
            "Example: ggp_manager season --rules-file game.kif --records season.records schedule\n\n",
            "status 0: every match has a record. 1: a match has no record, or another error occurred. ",
            "2: usage error. 3: out of memory. With --why, 2: any error.",
        ),
    },
    CommandForm {
        name: "verify",
        about: "Checks whether a record is lawful",
        arguments: &VERIFY,
        notes: concat!(
            "Example: ggp_manager verify --rules-file game.kif --lines season.records\n\n",
            "status 0: every record is lawful. 1: a record is not lawful, or another error occurred. ",
            "2: usage error. 3: out of memory. With --why, 2: any error except an unlawful record.",
        ),
    },
    CommandForm {
        name: "replay",
        about: "Makes the calls of a call log again, and compares each reply",
        arguments: &REPLAY,
        notes: concat!(
            "Example: ggp_manager replay --rules-file game.kif match.account\n\n",
            "status 0: every call gets the logged reply. 1: a call gets a different reply, or another error occurred. ",
            "2: usage error. 3: out of memory. With --why, 2: any error except a different reply.",
        ),
    },
    CommandForm {
        name: "info",
        about: "Asks a player whether it is available",
        arguments: &INFO,
        notes: concat!(
            "Example: ggp_manager info ann@127.0.0.1:9147\n\n",
            "status 0: the player answered. 1: the player did not answer, or another error occurred. ",
            "2: usage error. 3: out of memory. With --why, 2: any error except a missing answer.",
        ),
    },
    CommandForm {
        name: "check",
        about: "Tests a player: plays one match in each role, and prints each answer with its verdict",
        arguments: &CHECK,
        notes: concat!(
            "Example: ggp_manager check --rules-file game.kif --play 5 ann@127.0.0.1:9147\n\n",
            "status 0: no answer was bad. 1: an answer was bad, or another error occurred. ",
            "2: usage error. 3: out of memory. With --why, 2: any error except a bad answer.",
        ),
    },
    CommandForm {
        name: "abort",
        about: "Sends ABORT to the players of a match whose referee is gone",
        arguments: &ABORT,
        notes: concat!(
            "Example: ggp_manager abort m1 ann@127.0.0.1:9147 bob@127.0.0.1:9148\n\n",
            "status 0: every player answered. 1: a player did not answer, or another error occurred. ",
            "2: usage error. 3: out of memory. With --why, 2: any error except a missing answer.",
        ),
    },
];

fn forms() -> &'static [CommandForm] {
    &COMMANDS
}

/// The command with this name.
pub fn form_named(name: &str) -> Option<CommandForm> {
    forms().iter().find(|form| form.name == name).copied()
}

/// Builds the whole command line for `clap`.
pub fn program<'a>(alloc: Global) -> Result<Command<'a>, AllocError> {
    let mut program = Command::new(alloc, PROGRAM)
        .about("A referee for General Game Playing")
        .version(VERSION)
        .no_binary_name(true)
        .subcommand_required(true)
        .bin_name(PROGRAM)?;
    for form in forms() {
        program = program.subcommand(form.command(alloc)?)?;
    }
    Ok(program)
}
