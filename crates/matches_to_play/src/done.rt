//! Finds the matches that are over according to a file of records.
ghost use Rattle.std.specs.Prelude.{◌≡◌, ◌⊎◌, ◌↔◌, ◌∷◌, ◌++◌, [], ℕ, List, Some, None, if◌then◌else◌, map, option_map, IfErr, IfOk, IsTrue, OnOk};
ghost use Rattle.std.specs.Io.KnownBytes.{Consumes, IsAtEnd};
ghost use Rattle.std.specs.Str.Lines.{lines};
ghost use Rattle.game_core.specs.Bytes.{space};
ghost use Rattle.desk_calls.specs.Phases.{is_last};
ghost use Rattle.matches_to_play.specs.Done.{AreDone, AreNamesOf, is_noted, match_names};
ghost use Rattle.command_faults.specs.Faults.{IsFileFault};
ghost use Rattle.command_faults.specs.declared.files.NamedFile.TheVariants.{Records};

use command_faults::{Fault, FileFault, MAX_LINE, NamedFile, opened_regular, reading_fault};
use desk_text::is_account_line;
use game_core::{Counted, Game};
use indexmap::IndexSet;
use match_plans::MatchPlan;
use record_check::lawful_parts;
use record_reading::laws::{holds_one_parts_at_most, lawful_parts_have_shape};
use record_reading::{RecordParts, VerifyFault};
use std::alloc::{AllocError, Global};
use std::io::Read;
use std::rt::Files;
use whole_streams::laws::lines_are_taken;
use whole_streams::{LineBuffer, NextLine};

/// The matches that are over according to their records.
#[derive(Drop)]
pub struct DoneMatches {
    /// The id and the players of each match, as one text. Lawful names have no spaces, so different matches have different texts.
    names: IndexSet<Vec<u8>>,
    other_lines: u64,
}

fn push_name(names: &mut Vec<u8>, name: &[u8]) -> Result<(), AllocError>
    ensures { OnOk result (names.new.items ≡ names.old.items ++ name.now ++ space ∷ []) }
{
    names.extend_from_slice(name)?;
    names.extend_from_slice(b" ")
}

fn recorded_names(alloc: Global, parts: &RecordParts) -> Result<Vec<u8>, AllocError>
    ensures { IfOk result (λ names. names.items ≡ match_names parts.now.id parts.now.players) }
{
    let mut names = Vec::new(alloc);
    push_name(&mut names, parts.id.as_slice())?;
    for player in parts.players.as_slice() {
        push_name(&mut names, player.as_slice())?;
    }
    Ok(names)
}

fn planned_names(alloc: Global, plan: &MatchPlan<'_>) -> Result<Vec<u8>, AllocError>
    ensures { IfOk result (λ names. names.items ≡ match_names plan.now.id.now (map (λ p. p.name.now) plan.now.players.items)) }
{
    let mut names = Vec::new(alloc);
    push_name(&mut names, plan.id.as_bytes())?;
    for player in &plan.players {
        push_name(&mut names, player.name.as_bytes())?;
    }
    Ok(names)
}

/// The names in a record, or `None` if the match of the record is not over.
fn names_if_over(alloc: Global, parts: &RecordParts) -> Result<Option<Vec<u8>>, AllocError>
    ensures { IfOk result (λ o. option_map (λ names. names.items) o ≡ if is_last parts.now.phase then Some (match_names parts.now.id parts.now.players) else None) }
{
    if parts.phase.is_last() {
        Ok(Some(recorded_names(alloc, parts)?))
    } else {
        Ok(None)
    }
}

/// The names in a line, or `None` if the line is not a lawful record of a match that is over. Counts the line if it is neither a lawful
/// record nor a line of a call log.
fn done_names<G: Game>(
    alloc: Global,
    game: &G,
    line: &[u8],
    other_lines: &mut u64,
) -> Result<Option<Vec<u8>>, AllocError>
    ensures { IfOk result (λ o. AreNamesOf (G.rules game.now) line.now (option_map (λ names. names.items) o)) }
{
    lawful_parts_have_shape(game);
    holds_one_parts_at_most(game);
    match lawful_parts(alloc, game, line) {
        Ok(parts) => names_if_over(alloc, &parts),
        Err(VerifyFault::Memory) => Err(AllocError),
        Err(_) => {
            if !is_account_line(line) {
                *other_lines = other_lines.saturating_add(1);
            }
            Ok(None)
        }
    }
}

impl DoneMatches {
    /// The number of lines that are neither lawful records nor lines of call logs.
    pub fn other_lines(&self) -> u64 {
        self.other_lines
    }

    /// Whether a match with the plan's id and players is over.
    pub fn has(&self, alloc: Global, plan: &MatchPlan<'_>) -> Result<bool, AllocError>
        ensures { IfOk result (λ found. found ≡ is_noted self.now (match_names plan.now.id.now (map (λ p. p.name.now) plan.now.players.items))) }
    {
        let names = planned_names(alloc, plan)?;
        Ok(self.names.contains(names.as_slice()))
    }

    /// Adds the match of a line, if the line is a lawful record and the match is over. Counts the line if it is neither a lawful record
    /// nor a line of a call log.
    fn note<G: Game>(&mut self, alloc: Global, game: &G, line: &[u8]) -> Result<(), AllocError>
        ensures { OnOk result ((first : List (List ℕ)) → AreDone (G.rules game.now) first self.old → AreDone (G.rules game.now) (first ++ line.now ∷ []) self.new) }
    {
        match done_names(alloc, game, line, &mut self.other_lines) {
            Ok(Some(names)) => self.add(names),
            Ok(None) => Ok(()),
            Err(fault) => Err(fault),
        }
    }

    fn add(&mut self, names: Vec<u8>) -> Result<(), AllocError>
        ensures { OnOk result ((others : List ℕ) → IsTrue (is_noted self.new others) ↔ (IsTrue (is_noted self.old others) ⊎ (names.items ≡ others))) }
    {
        self.names.insert(names)?;
        Ok(())
    }
}

/// Reads the records in the lines of an input, with one line in memory at a time.
fn done_in<G: Game, R: Read>(
    alloc: Global,
    game: &G,
    reader: &mut Counted<R>,
) -> Result<DoneMatches, Fault>
    ensures done { IfOk result (λ done. (input : List ℕ)
        × Consumes (R.remaining reader.old.stream) (R.remaining reader.new.stream) input
        × IsAtEnd (R.remaining reader.new.stream)
        × AreDone (G.rules game.now) (lines input) done) }
    ensures fault { IfErr result (IsFileFault Records) }
{
    lines_are_taken();
    let mut done = DoneMatches {
        names: IndexSet::new(alloc),
        other_lines: 0,
    };
    let mut buffer = LineBuffer::new();
    for _ in 0..u64::MAX {
        match buffer.next_line(alloc, reader, MAX_LINE) {
            Ok(NextLine::Ended(line)) => done.note(alloc, game, &line)?,
            Ok(NextLine::Last(line)) => {
                done.note(alloc, game, &line)?;
                return Ok(done);
            }
            Ok(NextLine::Nothing) => return Ok(done),
            Err(fault) => return Err(reading_fault(NamedFile::Records, fault)),
        }
    }
    Err(Fault::File(NamedFile::Records, FileFault::TooLong))
}

/// Reads the records of the game in the file at this path, one in each line. Skips all other lines.
pub(crate) fn done_matches<F: Files, G: Game>(
    files: &F,
    alloc: Global,
    game: &G,
    path: &str,
) -> Result<DoneMatches, Fault>
    ensures done { IfOk result (λ done. (input : List ℕ) × AreDone (G.rules game.now) (lines input) done) }
    ensures fault { IfErr result (IsFileFault Records) }
{
    let mut file = opened_regular(files, NamedFile::Records, path)?;
    done_in(alloc, game, &mut file)
}
