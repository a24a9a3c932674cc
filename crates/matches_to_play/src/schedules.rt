//! Decides which matches of a schedule to play.
ghost use Rattle.std.specs.Prelude.{◌≡◌, ◌⊎◌, ℕ, List, IfErr, IfOk, is_some, true};
ghost use Rattle.std.specs.Str.Lines.{lines};
ghost use Rattle.ground_rules.specs.LoadedGame.{loaded_game};
ghost use Rattle.packed_rules.specs.PackedGames.{tables_of};
ghost use Rattle.command_faults.specs.Faults.{IsFileFault};
ghost use Rattle.command_faults.specs.declared.files.NamedFile.TheVariants.{Records};
ghost use Rattle.matches_to_play.specs.Done.{AreDone};
ghost use Rattle.matches_to_play.specs.ToPlay.{AreLeft, AreUndone, HasNoUndone, is_left, left_of};

use crate::accounts::{PartialRecord, partial_record};
use crate::done::{DoneMatches, done_matches};
use command_faults::{Fault, Printable, report_unusable_file};
use command_line::SeasonPlan;
use game_core::Game;
use match_plans::{MatchPlan, read_schedule};
use packed_rules::PackedGame;
use std::alloc::{AllocError, Global};
use std::fmt::Write as _;
use std::io::Write;
use std::rt::Files;
use whole_streams::Pieces;

fn is_left(alloc: Global, done: &DoneMatches, plan: &MatchPlan<'_>) -> Result<bool, AllocError>
    ensures { IfOk result (λ left. left ≡ is_left done.now plan.now) }
{
    Ok(!done.has(alloc, plan)?)
}

fn left_over<'a>(
    alloc: Global,
    plans: Vec<MatchPlan<'a>>,
    done: &DoneMatches,
) -> Result<Vec<MatchPlan<'a>>, AllocError>
    ensures { IfOk result (λ left. left.items ≡ left_of done.now plans.entry.items) }
{
    let mut left = Vec::with_capacity(alloc, plans.len())?;
    for plan in plans {
        if is_left(alloc, done, &plan)? {
            left.push(plan)?;
        }
    }
    Ok(left)
}

/// Reports how many lines of a file are neither lawful records nor lines of call logs, if there are any.
fn report_other_lines<E: Write>(errors: &mut E, path: &str, count: u64) {
    let mut pieces = Pieces { stream: errors };
    let _ = match count {
        0 => Ok(()),
        1 => writeln!(
            pieces,
            "ggp_manager: 1 line of {} is not a lawful record",
            Printable(path)
        ),
        _ => writeln!(
            pieces,
            "ggp_manager: {count} lines of {} are not lawful records",
            Printable(path)
        ),
    };
}

/// The matches that are over according to the file of records at this path. Reports how many of its lines are neither lawful records nor
/// lines of call logs, or why the file cannot be read.
fn done_by<F: Files, E: Write>(
    files: &F,
    alloc: Global,
    game: &PackedGame,
    path: &str,
    errors: &mut E,
) -> Result<DoneMatches, Fault>
    ensures done { IfOk result (λ done. (input : List ℕ) × AreDone (loaded_game (tables_of game.now)) (lines input) done) }
    ensures fault { IfErr result (IsFileFault Records) }
{
    match done_matches(files, alloc, game, path) {
        Ok(done) => {
            report_other_lines(errors, path, done.other_lines());
            Ok(done)
        }
        Err(fault) => {
            if let Fault::File(_, why) = fault {
                report_unusable_file(errors, path, why);
            }
            Err(fault)
        }
    }
}

/// The plans of the matches that are not over according to this file of records, or all plans if no file is named.
/// Reports how many lines of the file are neither lawful records nor lines of call logs.
pub fn undone<'a, F: Files, E: Write>(
    files: &F,
    alloc: Global,
    game: &PackedGame,
    file: Option<&str>,
    plans: Vec<MatchPlan<'a>>,
    errors: &mut E,
) -> Result<Vec<MatchPlan<'a>>, Fault>
    ensures left { IfOk result (λ left. AreLeft game.now file.entry plans.entry.items left.items) }
    ensures fault { IfErr result (λ fault. (is_some file.entry ≡ true) × IsFileFault Records fault) }
{
    match file {
        None => Ok(plans),
        Some(path) => {
            let done = done_by(files, alloc, game, path, errors)?;
            Ok(left_over(alloc, plans, &done)?)
        }
    }
}

/// Reports the first record in the file that has an incomplete call log. Its match counts as over.
fn report_partial<F: Files, E: Write>(
    files: &F,
    alloc: Global,
    game: &PackedGame,
    path: &str,
    errors: &mut E,
) -> Result<(), Fault>
    ensures fault { IfErr result (IsFileFault Records) }
{
    if let Some(PartialRecord { line, .. }) = partial_record(files, alloc, game, path)? {
        let mut pieces = Pieces { stream: errors };
        let _ = writeln!(
            pieces,
            "ggp_manager: line {line} of {}: the call log of this record is incomplete, but its match counts as over",
            Printable(path)
        );
    }
    Ok(())
}

/// Reports that the file contains no record of any match of a schedule.
fn report_none_done<E: Write>(errors: &mut E, path: &str) {
    let mut pieces = Pieces { stream: errors };
    let _ = writeln!(
        pieces,
        "ggp_manager: no match of the schedule is over according to {}",
        Printable(path)
    );
}

/// The matches of a schedule, except those that are over according to the `--done` file. If this file contains no record
/// of any match of the schedule, reports this.
pub fn plans_of<'a, F: Files, E: Write>(
    files: &F,
    alloc: Global,
    game: &PackedGame,
    season: SeasonPlan<'_>,
    schedule: &'a [u8],
    errors: &mut E,
) -> Result<Vec<MatchPlan<'a>>, Fault>
    ensures plans { IfOk result (λ plans. AreUndone game.now season.entry.strikes season.entry.done schedule.now plans.items) }
    ensures fault { IfErr result (HasNoUndone game.now season.entry.strikes season.entry.done schedule.now) }
{
    let plans = read_schedule(alloc, schedule, game.roles(), season.strikes)?;
    let all = plans.len();
    let left = undone(files, alloc, game, season.done, plans, errors)?;
    if let Some(path) = season.done {
        if left.len() == all {
            report_none_done(errors, path);
        }
        if season.form.has_history {
            report_partial(files, alloc, game, path, errors)?;
        }
    }
    Ok(left)
}
