//! Serves a desk over connections, and writes its call log and its records.

ghost use Rattle.std.specs.Prelude.{IfOk, OnOk};
ghost use Rattle.std.specs.Io.KnownBytes.{Appends};
ghost use Rattle.match_desk.specs.Headline.{HasHeadline};
ghost use Rattle.desk_text.specs.Account.{history_text};
ghost use Rattle.game_commands.specs.Script.{records};
ghost use Rattle.ggp_commands.specs.LoadedGame.{AreGamesOf, IsGameOf};

use crate::commands::Reports;
use crate::records_file::{mend_records, records_file, report_state};
use crate::shared_files::rules_file;
use call_history::Closed;
use command_faults::{Fault, FileFault, NamedFile, Printable};
use command_line::ServicePlan;
use desk_service::{Connections, Listener, Listens, ServiceSurroundings, serve_desk};
use desk_text::push_history;
use game_commands::{Evidence, game_of, limits_of, push_records, source_text};
use game_core::{Counted, Game};
use match_desk::Manager;
use match_plans::GameSource;
use packed_rules::PackedGame;
use process_streams::{
    FILE_SIZE, LockedFiles, LogFile, RecordsFile, RecordsState, limit_of, open_log,
};
use std::alloc::Global;
use std::fmt::Write as _;
use std::fs::File;
use std::io::{ErrorKind, Read, Write};
use std::rt::Files;
use std::sync::Wait;
use std::thread::Threads;
use std::time::Clock;
use std::{fs, io};
use whole_streams::{Pieces, write_all};

/// Loads a game.
fn game_at<F: Files>(
    files: &F,
    alloc: Global,
    source: GameSource<'_>,
    evidence: &mut Evidence,
) -> Result<PackedGame, Fault>
    ensures { IfOk result (IsGameOf source.entry) }
{
    let text = source_text(files, alloc, source)?;
    game_of(alloc, limits_of(source), &text, evidence)
}

/// Reports which source an error of a game is about.
fn report_source<E: Write>(errors: &mut E, source: GameSource<'_>, fault: Fault) {
    if let Some(path) = rules_file(source) {
        let mut pieces = Pieces { stream: errors };
        let _ = writeln!(pieces, "ggp_manager: {}: {fault}", Printable(path));
    }
}

/// The games of a desk, in the order of the sources.
fn games_of<F: Files, E: Write>(
    files: &F,
    alloc: Global,
    sources: &[GameSource<'_>],
    reports: &mut Reports<E>,
) -> Result<Vec<PackedGame>, Fault>
    ensures { IfOk result (λ games. AreGamesOf sources.now games.items) }
{
    let mut games = Vec::new(alloc);
    for source in sources {
        match game_at(files, alloc, *source, &mut reports.evidence) {
            Ok(game) => games.push(game)?,
            Err(fault) => {
                report_source(&mut reports.errors, *source, fault);
                return Err(fault);
            }
        }
    }
    Ok(games)
}

/// Reports why clients cannot connect, and returns the program's error.
fn not_listening<E: Write>(errors: &mut E, address: &str, error: io::Error) -> Fault {
    if let ErrorKind::OutOfMemory = error.kind() {
        return Fault::Memory;
    }
    let mut pieces = Pieces { stream: errors };
    let _ = writeln!(pieces, "ggp_manager: {}: {error}", Printable(address));
    Fault::NotListening
}

/// Creates the file for the call log.
fn history_file<F: Files>(files: &F, alloc: Global, path: &str) -> Result<LogFile<F::File>, Fault> {
    let limit = limit_of(files, alloc, FILE_SIZE);
    let created = match File::create_new(files, path) {
        Ok(_) => open_log(files, path, limit),
        Err(error) => Err(error),
    };
    match created {
        Ok(file) => Ok(file),
        Err(error) => Err(match error.kind() {
            ErrorKind::OutOfMemory => Fault::Memory,
            ErrorKind::AlreadyExists => Fault::File(NamedFile::History, FileFault::Exists),
            _ => Fault::File(NamedFile::History, FileFault::Unopened),
        }),
    }
}

/// The files for the call log and the records of a desk.
#[derive(Drop)]
struct DeskFiles<'a, F: Files> {
    history: Option<LogFile<F::File>>,
    records: Option<RecordsFile<'a, F, F::File>>,
}

/// Opens the files that a plan names.
fn desk_files<'a, F: LockedFiles, E: Write>(
    files: &'a F,
    alloc: Global,
    plan: &ServicePlan<'a>,
    errors: &mut E,
) -> Result<DeskFiles<'a, F>, Fault> {
    let mut records = None;
    if let Some(path) = plan.records {
        let mut file = records_file(files, alloc, path, errors)?;
        mend_records(&mut file, alloc, None, path, errors)?;
        records = Some(file);
    }
    let history = match plan.history {
        Some(path) => Some(history_file(files, alloc, path)?),
        None => None,
    };
    Ok(DeskFiles { history, records })
}

/// Writes the call log of a closed desk.
fn write_history<G: Game, W: Write>(
    alloc: Global,
    closed: &Closed<Manager<G>>,
    file: &mut Counted<W>,
) -> Result<(), Fault>
    ensures { OnOk result (Appends (W.contents file.old.stream) (W.contents file.new.stream) (history_text closed.now.history.items)) }
{
    let mut text = Vec::new(alloc);
    push_history(alloc, &mut text, closed.history.as_slice())?;
    match write_all(file, text.as_slice()) {
        Ok(()) => Ok(()),
        Err(_) => Err(Fault::File(NamedFile::History, FileFault::Unwritten)),
    }
}

/// Writes the records of a closed desk, in the order its matches were opened.
fn write_records<G: Game, W: Write>(
    alloc: Global,
    closed: &Closed<Manager<G>>,
    file: &mut Counted<W>,
) -> Result<(), Fault>
    ensures { OnOk result (Appends (W.contents file.old.stream) (W.contents file.new.stream)
        (records G.rules closed.now.object closed.now.object.matches)) }
{
    let mut text = Vec::new(alloc);
    push_records(alloc, &closed.object, &mut text)?;
    Ok(write_all(file, text.as_slice())?)
}

/// Writes the call log and the records of a closed desk to their files.
fn keep<F: LockedFiles, E: Write>(
    alloc: Global,
    closed: &Closed<Manager<PackedGame>>,
    files: DeskFiles<'_, F>,
    path: Option<&str>,
    errors: &mut E,
) -> Result<(), Fault> {
    let DeskFiles { history, records } = files;
    let kept = match history {
        Some(file) => write_history(alloc, closed, &mut Counted::new(file)),
        None => Ok(()),
    };
    let (Some(file), Some(path)) = (records, path) else {
        return kept;
    };
    let mut file = Counted::new(file);
    let written = write_records(alloc, closed, &mut file);
    let state = file.end().state();
    report_state(errors, path, state);
    match (state, written, kept) {
        (_, Err(fault), _) | (_, _, Err(fault)) => Err(fault),
        (RecordsState::Lost | RecordsState::Cut, _, _) => Err(Fault::WriteFault),
        _ => Ok(()),
    }
}

/// Prints the address that clients can connect to.
fn print_address<W: Write>(
    listener: &Listener,
    alloc: Global,
    address: &str,
    writer: &mut Counted<W>,
) -> Result<(), Fault> {
    let row = listener.row(alloc, address)?;
    Ok(write_all(writer, row.as_bytes())?)
}

/// Serves the games at a socket until the input ends, and writes the call log and the records to their files.
fn serve_at<H, R: Read, W: Write, E: Write>(
    around: &ServiceSurroundings<'_, H>,
    plan: &ServicePlan<'_>,
    games: Vec<PackedGame>,
    reader: &mut Counted<R>,
    writer: &mut Counted<W>,
    errors: &mut E,
) -> Result<(), Fault>
where
    H: Clock + Eprint + LockedFiles + Threads + Wait + Sync,
{
    let ServiceSurroundings {
        rt,
        alloc,
        connections,
    } = *around;
    let files = desk_files(rt, alloc, plan, errors)?;
    print_address(connections.listener, alloc, plan.address, writer)?;
    let closed = serve_desk(around, games, plan.lines, reader)?;
    keep(alloc, &closed, files, plan.records, errors)
}

/// Listens at the address of the plan, and serves the plan's games until the input ends. At the end, removes the socket
/// file that this function has created, if there is one.
pub fn serve<H, R: Read, W: Write, E: Write>(
    rt: &H,
    alloc: Global,
    plan: &ServicePlan<'_>,
    reader: &mut Counted<R>,
    writer: &mut Counted<W>,
    reports: &mut Reports<E>,
) -> Result<(), Fault>
where
    H: Clock + Eprint + Listens + LockedFiles + Threads + Wait + Sync,
{
    let games = games_of(rt, alloc, &plan.games, reports)?;
    let errors = &mut reports.errors;
    let listener = match rt.listen(plan.address) {
        Ok(listener) => listener,
        Err(error) => return Err(not_listening(errors, plan.address, error)),
    };
    let done = match Connections::new(alloc, &listener, plan.lines) {
        Ok(connections) => {
            let around = ServiceSurroundings {
                rt,
                alloc,
                connections: &connections,
            };
            serve_at(&around, plan, games, reader, writer, errors)
        }
        Err(error) => Err(not_listening(errors, plan.address, error)),
    };
    if let Some(path) = plan.address.strip_prefix("unix:") {
        let _ = fs::remove_file(rt, path);
    }
    done
}
