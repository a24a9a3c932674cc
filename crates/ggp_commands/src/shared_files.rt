//! The files and streams of a command. Finds files that are used in two conflicting ways, and reports which file an
//! error is about.

use command_faults::{Fault, FileFault, NamedFile, Printable, report_unusable_file};
use command_line::{GameOptions, MatchTask, SeasonPlan, Task};
use match_plans::{GameCommand, GameSource, GameTask, RulesSource};
use process_streams::{ERRORS, INPUT, OUTPUT, is_one_file};
use std::alloc::{AllocError, Global};
use std::fmt::Write as _;
use std::fs;
use std::io::Write;
use std::rt::Files;
use whole_streams::Pieces;

/// The use of a file or stream in a command.
#[derive(Clone, Copy)]
enum Role {
    Input,
    Output,
    Errors,
    Rules,
    PlayerRules,
    NamedInput,
    Done,
    Records,
    Log,
    History,
}

impl Role {
    fn words(self) -> &'static str {
        match self {
            Role::Input => "standard input",
            Role::Output => "standard output",
            Role::Errors => "standard error",
            Role::Rules => "the file of --rules-file",
            Role::PlayerRules => "the file of --player-rules",
            Role::NamedInput => "the file of the input",
            Role::Done => "the file of --done",
            Role::Records => "the file of --records",
            Role::Log => "the file of --log",
            Role::History => "the file of --history",
        }
    }

    /// The use of the file, as error messages name it.
    fn named(self) -> NamedFile {
        match self {
            Role::Rules => NamedFile::Rules,
            Role::PlayerRules => NamedFile::PlayerRules,
            Role::Done | Role::Records => NamedFile::Records,
            Role::Log => NamedFile::Log,
            Role::History => NamedFile::History,
            Role::Input | Role::Output | Role::Errors | Role::NamedInput => NamedFile::Input,
        }
    }

    fn is_written(self) -> bool {
        matches!(
            self,
            Role::Output | Role::Errors | Role::Records | Role::Log | Role::History
        )
    }
}

/// A file or stream that a command uses, with its path. The path of a standard stream is in `/proc`.
#[derive(Clone, Copy)]
struct Used<'a> {
    role: Role,
    path: &'a str,
}

fn push<'a>(used: &mut Vec<Used<'a>>, role: Role, path: Option<&'a str>) -> Result<(), AllocError> {
    if let Some(path) = path {
        used.push(Used { role, path })?;
    }
    Ok(())
}

pub fn rules_file<'a>(game: GameSource<'a>) -> Option<&'a str> {
    match game {
        GameSource::Described(RulesSource::File(path), _) => Some(path),
        _ => None,
    }
}

/// The log file. A dash means standard error, which is not a file.
fn log_file(log: Option<&str>) -> Option<&str> {
    match log {
        Some("-") => None,
        log => log,
    }
}

fn push_season<'a>(used: &mut Vec<Used<'a>>, plan: &SeasonPlan<'a>) -> Result<(), AllocError> {
    match plan.schedule {
        Some(path) => push(used, Role::NamedInput, Some(path))?,
        None => push(used, Role::Input, Some(INPUT))?,
    }
    push(used, Role::Done, plan.done)?;
    push(used, Role::Records, plan.records)
}

/// The files and streams that a command uses. The list contains standard input only for `replay` and `season`.
fn used_by<'a>(alloc: Global, task: &Task<'a>) -> Result<Vec<Used<'a>>, AllocError> {
    let mut used = Vec::new(alloc);
    push(&mut used, Role::Output, Some(OUTPUT))?;
    push(&mut used, Role::Errors, Some(ERRORS))?;
    match task {
        Task::Host(options, task) => {
            let GameOptions {
                game,
                player_rules,
                log,
            } = *options;
            push(&mut used, Role::Rules, rules_file(game))?;
            push(&mut used, Role::PlayerRules, player_rules)?;
            push(&mut used, Role::Log, log_file(log))?;
            if let MatchTask::Season(plan) = task {
                push_season(&mut used, plan)?;
            }
        }
        Task::Game(request) => {
            let GameTask {
                command,
                game,
                file,
            } = request.task;
            push(&mut used, Role::Rules, rules_file(game))?;
            push(&mut used, Role::NamedInput, file)?;
            if let (GameCommand::Replay, None) = (command, file) {
                push(&mut used, Role::Input, Some(INPUT))?;
            }
        }
        Task::Serve(plan) => {
            for game in &plan.games {
                push(&mut used, Role::Rules, rules_file(*game))?;
            }
            push(&mut used, Role::Records, plan.records)?;
            push(&mut used, Role::History, plan.history)?;
        }
        Task::Info(_) | Task::Abort(_) | Task::Show(_) => {}
    }
    Ok(used)
}

/// Whether the file at this path is empty. The shell creates or empties the file after `>` before the program begins.
fn is_empty<F: Files>(files: &F, path: &str) -> bool {
    match fs::metadata(files, path) {
        Ok(found) => found.len() == 0,
        Err(_) => false,
    }
}

/// Whether using one file in these two ways would destroy the file or the output. `--done` and `--records` may name the
/// same file, and standard output may be appended to the `--done` file.
fn are_at_odds<F: Files>(files: &F, one: Used<'_>, other: Used<'_>) -> bool {
    if !one.role.is_written() && !other.role.is_written() {
        return false;
    }
    match (one.role, other.role) {
        (Role::Output, Role::Errors) | (Role::Done, Role::Records) => return false,
        (Role::Output, Role::Done) if !is_empty(files, other.path) => return false,
        _ => {}
    }
    // If two files have the same path but do not exist yet, they will become one file.
    one.path == other.path || is_one_file(files, one.path, other.path)
}

fn report_shared<F: Files, E: Write>(files: &F, one: Used<'_>, other: Used<'_>, errors: &mut E) {
    let emptied = if is_empty(files, other.path) {
        ", and is empty now, as `>` of the shell makes it"
    } else {
        ""
    };
    let mut pieces = Pieces { stream: errors };
    let _ = writeln!(
        pieces,
        "ggp_manager: {} is {} and {}{emptied}: name two files",
        Printable(other.path),
        other.role.words(),
        one.role.words()
    );
}

/// Refuses a command that writes to a regular file and also uses this file in another way.
pub fn refuse_shared<F: Files, E: Write>(
    files: &F,
    alloc: Global,
    task: &Task<'_>,
    errors: &mut E,
) -> Result<(), Fault> {
    let used = used_by(alloc, task)?;
    for (place, other) in used.iter().enumerate() {
        for one in &used[..place] {
            if are_at_odds(files, *one, *other) {
                report_shared(files, *one, *other, errors);
                return Err(Fault::File(other.role.named(), FileFault::Shared));
            }
        }
    }
    Ok(())
}

/// Reports which file an error is about, unless the command has already reported the file.
pub fn report_faulty_file<E: Write>(alloc: Global, task: &Task<'_>, fault: Fault, errors: &mut E) {
    let Fault::File(named, why) = fault else {
        return;
    };
    let Ok(used) = used_by(alloc, task) else {
        return;
    };
    for file in &used {
        let is_it = match file.role {
            // A desk that listens may have several games. It has already reported which game cannot be used.
            Role::Rules => matches!(named, NamedFile::Rules) && !matches!(task, Task::Serve(_)),
            Role::PlayerRules => matches!(named, NamedFile::PlayerRules),
            Role::NamedInput => matches!(named, NamedFile::Input),
            Role::Log => matches!(named, NamedFile::Log),
            Role::History => matches!(named, NamedFile::History),
            _ => false,
        };
        if is_it {
            report_unusable_file(errors, file.path, why);
        }
    }
}
