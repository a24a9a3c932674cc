//! Error messages about a refused command line.

use crate::arguments::{ArgumentFault, WrongValue};
use crate::program::{PROGRAM, form_named, program};
use clap::error::ErrorKind;
use std::alloc::{AllocError, Global};

/// The commands that always print an explanation before the error, even if standard error is not a terminal.
const EXPLAINED_COMMANDS: [&str; 4] = ["season", "check", "replay", "abort"];

/// The options that also make the program print an explanation.
const EXPLAINED_OPTIONS: [&str; 7] = [
    "--rules-file",
    "--large",
    "--player-rules",
    FORMER_PLAYER_RULES,
    "--lines",
    "--log",
    "--history",
];

const FORMER_PLAYER_RULES: &str = "--told";

/// Whether the argument is this option, with or without `=VALUE`.
fn is_option(argument: &str, option: &str) -> bool {
    match argument.strip_prefix(option) {
        Some(rest) => rest.is_empty() || rest.starts_with('='),
        None => false,
    }
}

/// Whether a command line contains one of the `EXPLAINED_COMMANDS` or `EXPLAINED_OPTIONS`. If so, the program prints an
/// explanation before the error, even if standard error is not a terminal.
pub fn always_explains(arguments: &[String]) -> bool {
    let is_own = |argument: &String| EXPLAINED_OPTIONS
        .iter()
        .any(|option| is_option(argument.as_str(), option));
    match arguments.first() {
        Some(first)
            if EXPLAINED_COMMANDS
                .iter()
                .any(|name| first.as_str() == *name) => true,
        _ => arguments.iter().any(is_own),
    }
}

/// Whether a command line contains `--why` or `--json`. With either, the program prints the explanation even if standard error is not
/// a terminal, and its exit status is 1 for a negative answer and 2 for any other error. Arguments after `--` are not options.
pub fn asks_why(arguments: &[String]) -> bool {
    for argument in arguments {
        match argument.as_str() {
            "--why" | "--json" => return true,
            "--" => return false,
            _ => {}
        }
    }
    false
}

/// The message about an invalid value.
fn message_of(alloc: Global, command: &str, wrong: WrongValue<'_>) -> Result<String, AllocError> {
    match wrong {
        WrongValue::Game if command == "run" => String::from_str(
            alloc,
            "exactly one of --rules and --rules-file is needed",
        ),
        WrongValue::Game => String::from_str(
            alloc,
            "exactly one of --countdown, --rules and --rules-file is needed",
        ),
        WrongValue::Number {
            option,
            value,
            least,
            limit,
        } => format!(in alloc;
            "invalid value '{value}' for '--{option}': digits are needed, for a number from {least} to {limit}"
        ),
        WrongValue::Player(word) => format!(in alloc;
            "invalid value '{word}' for a player: NAME@HOST:PORT is needed, with a lawful name and a port from 1 to 65535"
        ),
    }
}

fn with_usage(
    alloc: Global,
    command: &str,
    kind: ErrorKind,
    what: &str,
) -> Result<String, AllocError> {
    let Some(form) = form_named(command) else {
        return String::from_str(alloc, what);
    };
    let title = format!(in alloc; "{PROGRAM} {command}")?;
    let mut command = form.command(alloc)?.bin_name(title.as_str())?;
    let error = command.error(kind, what)?;
    error.to_string(alloc)
}

/// The message of `clap` about these arguments.
fn wrong_form<'a>(alloc: Global, arguments: &'a [&'a str]) -> Result<String, AllocError> {
    match program(alloc)?.try_get_matches_from(arguments) {
        Ok(_) => Ok(String::new(alloc)),
        Err(error) => error.to_string(alloc),
    }
}

/// The error message for a refused command line, with the usage. `fault` is the error of `read_arguments` for the same arguments.
pub fn refusal<'a>(
    alloc: Global,
    arguments: &'a [&'a str],
    fault: ArgumentFault<'_>,
) -> Result<String, AllocError> {
    match (fault, arguments.first()) {
        (ArgumentFault::Value(wrong), Some(command)) => {
            let what = message_of(alloc, command, wrong)?;
            with_usage(alloc, command, ErrorKind::ValueValidation, what.as_str())
        }
        (_, Some(command))
            if arguments
                .iter()
                .any(|argument| is_option(argument, FORMER_PLAYER_RULES)) => with_usage(
            alloc,
            command,
            ErrorKind::UnknownArgument,
            "--told is now --player-rules",
        ),
        _ => wrong_form(alloc, arguments),
    }
}
