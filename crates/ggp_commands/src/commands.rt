//! The commands, over any streams, runtime and players.
ghost use Rattle.std.specs.Prelude.{◌≡◌, IfErr, IfOk, OnOk};
ghost use Rattle.std.specs.Io.KnownBytes.{Appends};
ghost use Rattle.match_log.specs.LoggedPlayers.{is_logged_reached, logged_handed};
ghost use Rattle.whole_streams.specs.Streams.{AppendsPart};
ghost use Rattle.command_faults.specs.declared.fault.Fault.TheVariants.{WriteFault};
ghost use Rattle.ggp_commands.specs.Faults.{status_of};
ghost use Rattle.ggp_commands.specs.LoadedGame.{IsLoadedGame};
ghost use Rattle.ggp_commands.specs.Tasks.{Fails, FailsToPlay, IsNotBegun, Performs, Plays, ReadsInput};

use crate::explaining::{Subject, explain};
use crate::faults::{argument_fault, command_end, status_of, task_end};
use crate::loaded_game::{LoadedGame, load};
use crate::log_target::{LogTarget, log_target};
use crate::matches::{ReadyTask, input_of, play_with_reports};
use crate::serving::serve;
use crate::shared_files::{refuse_shared, report_faulty_file};
use crate::surroundings::Surroundings;
use command_faults::Fault;
use command_line::{GameOptions, MatchTask, Task, always_explains, read_arguments, refusal};
use desk_service::Listens;
use game_commands::{Evidence, for_game};
use game_core::Counted;
use match_log::WriterBrand;
use match_messages::Player;
use match_plans::{Reach, ReportsShortages};
use network_players::{Explains, Resolves};
use player_commands::{Reasons, abort, info};
use process_streams::{LockedFiles, LogFile};
use std::alloc::{AllocError, Global};
use std::fmt::Write as _;
use std::io::{Read, Write};
use std::marker::Brand;
use std::rt::Files;
use std::sync::Wait;
use std::thread::Threads;
use std::time::Clock;
use whole_streams::{Pieces, write_all};

/// The standard error of a command, and the things to explain there when the command ends.
#[derive(Drop)]
pub struct Reports<E> {
    pub errors: E,
    pub evidence: Evidence,
}

/// Runs the command with these arguments, and returns the exit status. If the command fails, writes an explanation and
/// the error to `errors`. Ignores failed writes to `errors`. If `errors` is a terminal, it also shows the progress of
/// matches. `--why` takes effect only if the terminals of `around` say that it is on the command line.
pub fn command<H, S, R: Read, W: Write, E: Write + Send + Drop>(
    around: &Surroundings<'_, H, S>,
    arguments: &[String],
    reader: &mut Counted<R>,
    writer: &mut Counted<W>,
    errors: E,
) -> u8
where
    H: Resolves + Clock + Eprint + Listens + LockedFiles + Threads + Wait + Sync,
    H::File: Send,
    S: Reach + ReportsShortages + Sync,
    S::Player: Player + Explains + Drop + Send,
{
    let mut reports = Reports {
        errors,
        evidence: Evidence::Nothing,
    };
    let performed = match texts(around.alloc, arguments) {
        Ok(arguments) => match task_of(around.alloc, &arguments, &mut reports.evidence) {
            Ok(task) => { perform::<H, S, R, W, E>(around, &task, reader, writer, &mut reports) }
            Err(fault) => Err(fault),
        },
        Err(AllocError) => Err(Fault::Memory),
    };
    let Reports {
        mut errors,
        evidence,
    } = reports;
    let are_wanted = around.terminals.explain() || always_explains(arguments);
    explain(
        around.alloc,
        are_wanted,
        &Subject::Evidence(&evidence),
        &mut errors,
    );
    end(performed, around.terminals.why, &mut errors)
}

/// Runs a task, unless it uses one file in two conflicting ways. Reports which file an error is about.
fn perform<H, S, R: Read, W: Write, E: Write + Send>(
    around: &Surroundings<'_, H, S>,
    task: &Task<'_>,
    reader: &mut Counted<R>,
    writer: &mut Counted<W>,
    reports: &mut Reports<E>,
) -> Result<(), Fault>
where
    H: Resolves + Clock + Eprint + Listens + LockedFiles + Threads + Wait + Sync,
    H::File: Send,
    S: Reach + ReportsShortages + Sync,
    S::Player: Player + Explains + Drop + Send,
{
    refuse_shared(around.rt, around.alloc, task, &mut reports.errors)?;
    let (performed, _writer) = perform_task::<Brand, H, S, R, W, E>(
        around, task, reader, writer, reports,
    );
    if let Err(fault) = performed {
        report_faulty_file(around.alloc, task, fault, &mut reports.errors);
    }
    performed
}

fn texts<'a>(alloc: Global, arguments: &'a [String]) -> Result<Vec<&'a str>, AllocError> {
    arguments
        .iter()
        .map(|argument| argument.as_str())
        .collect(alloc)
}

/// Reports the error of a command, if there is one. Returns the exit status.
fn end<E: Write>(performed: Result<(), Fault>, why: bool, errors: &mut E) -> u8
    ensures none { OnOk performed (result ≡ 0) }
    ensures some { IfErr performed (λ fault. result ≡ status_of why fault) }
{
    match performed {
        Ok(()) => 0,
        Err(fault) => report(errors, fault, why),
    }
}

/// Writes the error as a line, and returns the exit status. Ignores errors of the stream. `why` says whether the
/// command line contains `--why` or `--json`.
pub fn report<E: Write>(errors: &mut E, fault: Fault, why: bool) -> u8
    ensures { result ≡ status_of why fault }
{
    let mut pieces = Pieces { stream: errors };
    let _ = writeln!(pieces, "ggp_manager: {fault}");
    status_of(fault, why)
}

/// The task of these arguments. If the arguments are refused, stores the message as evidence.
fn task_of<'a>(
    alloc: Global,
    arguments: &'a [&'a str],
    evidence: &mut Evidence,
) -> Result<Task<'a>, Fault> {
    match read_arguments(alloc, arguments) {
        Ok(task) => Ok(task),
        Err(fault) => {
            let refused = argument_fault(fault);
            if let Fault::WrongUse = refused {
                if let Ok(lines) = refusal(alloc, arguments, fault) {
                    *evidence = Evidence::CommandLine(lines);
                }
            }
            Err(refused)
        }
    }
}

/// Loads the game with the rules for its players, opens the log, and reads the input of the task.
fn prepared<F: Files, R: Read>(
    files: &F,
    alloc: Global,
    plan: &GameOptions<'_>,
    task: &MatchTask<'_>,
    reader: &mut Counted<R>,
    evidence: &mut Evidence,
) -> Result<(LoadedGame, LogTarget<LogFile<F::File>>, Vec<u8>), Fault>
    ensures playable { IfOk result (λ prepared. IsLoadedGame plan.now prepared.0.game prepared.0.rules) }
    ensures read { IfOk result (λ prepared. ReadsInput R.remaining task.now prepared.2.items reader.old reader.new) }
    ensures fault { IfErr result (λ fault. IsNotBegun R.remaining plan.now task.now fault reader.old reader.new) }
{
    let loaded_game = load(files, alloc, *plan, evidence)?;
    let log = log_target(files, alloc, plan.log)?;
    let input = input_of(files, alloc, task, reader)?;
    Ok((loaded_game, log, input))
}

/// Plays the matches of a task. Also returns the output, so that contracts know its content.
fn play<'w, N: WriterBrand, H, S, R: Read, W: Write, E: Write + Send>(
    around: &Surroundings<'_, H, S>,
    plan: &GameOptions<'_>,
    task: &MatchTask<'_>,
    reader: &mut Counted<R>,
    writer: &'w mut Counted<W>,
    reports: &mut Reports<E>,
) -> (Result<(), Fault>, &'w mut Counted<W>)
where
    H: Resolves + Clock + LockedFiles + Threads + Wait + Sync,
    H::File: Send,
    S: Reach + ReportsShortages + Sync,
    S::Player: Player + Explains + Drop + Send,
    requires picked { N.name ≡ writer.ghost_name }
    ensures output { result.1.ghost_name ≡ writer.entry.ghost_name }
    ensures played { OnOk result.0 (Plays H (is_logged_reached H (S.is_reached around.now.reach.now)) (logged_handed H S.Player.handed) R.remaining W.contents plan.now task.now reader.old reader.new writer.entry.now result.1.now 0) }
    ensures at_fault { IfErr result.0 (FailsToPlay H (is_logged_reached H (S.is_reached around.now.reach.now)) (logged_handed H S.Player.handed) R.remaining W.contents plan.now task.now reader.old reader.new writer.entry.now result.1.now) }
{
    let evidence = &mut reports.evidence;
    let (loaded_game, log, input) = match prepared(
        around.rt,
        around.alloc,
        plan,
        task,
        reader,
        evidence,
    ) {
        Ok(prepared) => prepared,
        Err(fault) => return (Err(fault), writer),
    };
    let ready = ReadyTask {
        task: &*task,
        game: loaded_game.playable(),
        input: &input,
    };
    let (held, writer) = play_with_reports::<N, H, S, W, E, LogFile<H::File>>(
        around,
        ready,
        log,
        writer,
        &mut reports.errors,
    );
    (task_end(task, held), writer)
}

/// Runs a task. Also returns the output, so that contracts know its content.
fn perform_task<'w, N: WriterBrand, H, S, R: Read, W: Write, E: Write + Send>(
    around: &Surroundings<'_, H, S>,
    task: &Task<'_>,
    reader: &mut Counted<R>,
    writer: &'w mut Counted<W>,
    reports: &mut Reports<E>,
) -> (Result<(), Fault>, &'w mut Counted<W>)
where
    H: Resolves + Clock + Eprint + Listens + LockedFiles + Threads + Wait + Sync,
    H::File: Send,
    S: Reach + ReportsShortages + Sync,
    S::Player: Player + Explains + Drop + Send,
    requires picked { N.name ≡ writer.ghost_name }
    ensures output { result.1.ghost_name ≡ writer.entry.ghost_name }
    ensures performed { OnOk result.0 (Performs H (is_logged_reached H (S.is_reached around.now.reach.now)) (logged_handed H S.Player.handed) R.remaining H.File.remaining W.contents task.now reader.old reader.new writer.entry.now result.1.now) }
    ensures at_fault { IfErr result.0 (Fails H (is_logged_reached H (S.is_reached around.now.reach.now)) (logged_handed H S.Player.handed) R.remaining H.File.remaining W.contents task.now reader.old reader.new writer.entry.now result.1.now) }
{
    let Surroundings { rt, alloc, .. } = *around;
    match task {
        Task::Show(text) => (show(text.as_str(), writer), writer),
        Task::Serve(plan) => (serve(rt, alloc, plan, reader, writer, reports), writer),
        Task::Game(request) => {
            let evidence = &mut reports.evidence;
            let performed = for_game(rt, alloc, *request, reader, writer, evidence);
            (performed, writer)
        }
        Task::Info(plan) => {
            let reasons = Reasons {
                errors: &mut reports.errors,
                are_wanted: around.terminals.explain(),
            };
            let performed = info(rt, alloc, plan, writer, reasons);
            (command_end(performed), writer)
        }
        Task::Abort(plan) => {
            let are_wanted = around.terminals.explain();
            explain(
                alloc,
                are_wanted,
                &Subject::Id(plan.id),
                &mut reports.errors,
            );
            let reasons = Reasons {
                errors: &mut reports.errors,
                are_wanted,
            };
            let performed = abort(rt, alloc, plan, writer, reasons);
            (command_end(performed), writer)
        }
        Task::Host(plan, task) => {
            play::<N, H, S, R, W, E>(around, plan, task, reader, writer, reports)
        }
    }
}

fn show<W: Write>(text: &str, writer: &mut Counted<W>) -> Result<(), Fault>
    ensures whole { OnOk result (Appends (W.contents writer.old.stream) (W.contents writer.new.stream) text.now) }
    ensures at_fault { IfErr result (λ fault. (fault ≡ WriteFault) × AppendsPart (W.contents writer.old.stream) (W.contents writer.new.stream) text.now) }
{
    Ok(write_all(writer, text.as_bytes())?)
}
