//! The commands for one game, over an input and standard output.
ghost use Rattle.std.specs.Prelude.{◌≡◌, ◌≢◌, ◌⊎◌, ◌∷◌, [], ℕ, List, IfErr, IfOk, OnOk};
ghost use Rattle.std.specs.Io.KnownBytes.{Appends, Consumes, IsAtEnd};
ghost use Rattle.std.specs.Str.Lines.{lines};
ghost use Rattle.game_commands.specs.Commands.{Answers, AnswersInput, DeskFails, Fails, FailsInput, HasNoGame, HoldsOfGame};
ghost use Rattle.game_commands.specs.Script.{bad_lines, script_output};

use crate::checking::{check_record, check_records};
use crate::evidence::Evidence;
use crate::interactive::run_interactive;
use crate::replaying::replay_accounts;
use crate::rules::{game_of, rules_text};
use crate::script::run_script;
use command_faults::{Fault, NamedFile, input_file_fault, opened};
use command_line::GameRequest;
use game_core::{Countdown, Counted, Game};
use match_plans::{GameCommand, GameSource};
use std::alloc::{AllocError, Global};
use std::io::{Read, Write};
use std::rt::Files;

fn fail_if_any(count: u64, fault: Fault) -> Result<(), Fault>
    ensures none { OnOk result (count ≡ 0) }
    ensures some { IfErr result (λ given. (count ≢ 0) × (given ≡ fault)) }
{
    match count {
        0 => Ok(()),
        _ => Err(fault),
    }
}

fn alone<G: Drop>(alloc: Global, game: G) -> Result<Vec<G>, AllocError>
    ensures { IfOk result (λ games. games.items ≡ game ∷ []) }
{
    let mut games = Vec::new(alloc);
    games.push(game)?;
    Ok(games)
}

/// Runs a script on a new desk with these games, and returns the number of bad lines. If `is_interactive` is true,
/// answers each line before it reads the next one.
fn run_desk<G: Game + Drop, R: Read, W: Write>(
    alloc: Global,
    is_interactive: bool,
    reader: &mut Counted<R>,
    writer: &mut Counted<W>,
    games: Vec<G>,
    evidence: &mut Evidence,
) -> Result<u64, Fault>
    ensures output { IfOk result (λ bad. (input : List ℕ)
        × Consumes (R.remaining reader.old.stream) (R.remaining reader.new.stream) input
        × IsAtEnd (R.remaining reader.new.stream)
        × Appends (W.contents writer.old.stream) (W.contents writer.new.stream) (script_output G.rules games.items input)
        × (bad ≡ bad_lines (lines input))) }
    ensures no_fault { OnOk result ((reader.new.faults ≡ reader.old.faults) × (writer.new.faults ≡ writer.old.faults)) }
    ensures fails { IfErr result (λ fault. (given : List ℕ)
        × Consumes (R.remaining reader.old.stream) (R.remaining reader.new.stream) given
        × DeskFails R.remaining W.contents is_interactive G.rules games.items fault given reader.old reader.new writer.old writer.new) }
{
    if is_interactive {
        run_interactive(alloc, reader, writer, games)
    } else {
        run_script(alloc, reader, writer, games, evidence)
    }
}

fn perform<G: Game + Drop, R: Read, W: Write>(
    alloc: Global,
    request: GameRequest<'_>,
    game: G,
    reader: &mut Counted<R>,
    writer: &mut Counted<W>,
    evidence: &mut Evidence,
) -> Result<(), Fault>
    ensures answers { OnOk result (Answers R.remaining W.contents request.entry.is_json G.rules game request.entry.task.command 0 reader.old reader.new writer.old writer.new) }
    ensures fails { IfErr result (λ fault. Fails R.remaining W.contents request.entry G.rules game fault reader.old reader.new writer.old writer.new) }
{
    let GameRequest { task, is_json, .. } = request;
    match task.command {
        GameCommand::Desk => {
            let count = run_desk(
                alloc,
                request.is_interactive,
                reader,
                writer,
                alone(alloc, game)?,
                evidence,
            )?;
            fail_if_any(count, Fault::BadLines(count))
        }
        GameCommand::Verify => check_record(alloc, is_json, &game, reader, writer, evidence),
        GameCommand::VerifyLines => match check_records(alloc, is_json, &game, reader, writer) {
            Ok(counts) => {
                *evidence = Evidence::SkippedLines(counts.skipped);
                fail_if_any(counts.unlawful, Fault::UnlawfulRecords(counts.unlawful))
            }
            Err(fault) => Err(fault),
        },
        GameCommand::Replay => replay_accounts(alloc, is_json, reader, writer, &game, evidence),
    }
}

/// A command and its game.
#[derive(Drop)]
struct LoadedRequest<'a, G> {
    request: GameRequest<'a>,
    game: G,
}

/// Runs a command for its game. The input is the file that the request names. If the request names no file, the input is the reader.
fn perform_on<F: Files, G: Game + Drop, R: Read, W: Write>(
    files: &F,
    alloc: Global,
    loaded: LoadedRequest<'_, G>,
    reader: &mut Counted<R>,
    writer: &mut Counted<W>,
    evidence: &mut Evidence,
) -> Result<(), Fault>
    ensures answers { OnOk result (AnswersInput R.remaining F.File.remaining W.contents G.rules loaded.entry.game loaded.entry.request reader.old reader.new writer.old writer.new) }
    ensures fails { IfErr result (λ fault. FailsInput R.remaining F.File.remaining W.contents G.rules loaded.entry.game loaded.entry.request fault reader.old reader.new writer.old writer.new) }
{
    let LoadedRequest { request, game } = loaded;
    let Some(path) = request.task.file else {
        return perform(alloc, request, game, reader, writer, evidence);
    };
    let mut input = opened(files, NamedFile::Input, path)?;
    match perform(alloc, request, game, &mut input, writer, evidence) {
        Ok(()) => Ok(()),
        Err(fault) => Err(input_file_fault(fault)),
    }
}

/// Loads the game of the request, and runs the command.
pub fn for_game<F: Files, R: Read, W: Write>(
    files: &F,
    alloc: Global,
    request: GameRequest<'_>,
    reader: &mut Counted<R>,
    writer: &mut Counted<W>,
    evidence: &mut Evidence,
) -> Result<(), Fault>
    ensures answers { OnOk result (HoldsOfGame request.entry.task.game (λ _ _ _ rules game. AnswersInput R.remaining F.File.remaining W.contents rules game request.entry reader.old reader.new writer.old writer.new)) }
    ensures fails { IfErr result (λ fault. (HasNoGame request.entry.task.game fault × (reader.new ≡ reader.old) × (writer.new ≡ writer.old))
        ⊎ HoldsOfGame request.entry.task.game (λ _ _ _ rules game. FailsInput R.remaining F.File.remaining W.contents rules game request.entry fault reader.old reader.new writer.old writer.new)) }
{
    match request.task.game {
        GameSource::Countdown(size) => {
            let Some(game) = Countdown::new(size) else {
                return Err(Fault::WrongUse);
            };
            let loaded = LoadedRequest { request, game };
            perform_on(files, alloc, loaded, reader, writer, evidence)
        }
        GameSource::Described(rules, limits) => {
            let text = rules_text(files, alloc, limits, rules)?;
            match game_of(alloc, limits, &text, evidence) {
                Ok(game) => {
                    let loaded = LoadedRequest { request, game };
                    perform_on(files, alloc, loaded, reader, writer, evidence)
                }
                Err(fault) => Err(fault),
            }
        }
    }
}
