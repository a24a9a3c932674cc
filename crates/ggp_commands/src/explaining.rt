//! Explains the error of a command, or reports how many lines the command skipped.

use command_faults::Printable;
use command_line::{MatchTask, RunPlan};
use explanations::{
    push_bad_entry, push_broken_rules, push_description, push_first_bad_line, push_refused_matches,
    push_several_lines, push_skipped_lines,
};
use game_commands::Evidence;
use std::alloc::{AllocError, Global};
use std::fmt::Write as _;
use std::io::Write;
use whole_streams::Pieces;

/// The subject of an explanation.
#[derive(Drop)]
pub enum Subject<'a> {
    /// The evidence of an error.
    Evidence(&'a Evidence),
    /// The matches of a schedule that the desk refuses to open.
    Schedule(&'a [u8]),
    /// Why the desk refuses to open the match of a run or of a check, in a game with this many roles.
    Opening(&'a MatchTask<'a>, usize),
    /// Why this match id is invalid, or `None` if it is valid.
    Id(&'a str),
}

/// Appends the explanation of this evidence to `lines`. The only error is out of memory.
fn push_evidence(alloc: Global, evidence: &Evidence, lines: &mut String) -> Result<(), AllocError> {
    match evidence {
        Evidence::Nothing => {}
        Evidence::CommandLine(message) => lines.push_str(message.as_str())?,
        Evidence::Description(text, limits, fault) => {
            push_description(alloc, *limits, text, *fault, lines)?
        }
        Evidence::Script(script) => push_first_bad_line(alloc, script, lines)?,
        Evidence::Record(text) => push_several_lines(text, lines)?,
        Evidence::Account(account, before, fault) => {
            push_bad_entry(account, *before, fault, lines)?
        }
        Evidence::SkippedLines(count) => push_skipped_lines(*count, lines)?,
    }
    Ok(())
}

/// Escapes an id so that it fits on one line. An invalid id remains invalid.
fn one_line(alloc: Global, id: &str) -> Result<String, AllocError> {
    format!(in alloc; "{}", Printable(id))
}

fn push_lines(alloc: Global, subject: &Subject<'_>, lines: &mut String) -> Result<(), AllocError> {
    match subject {
        Subject::Evidence(evidence) => return push_evidence(alloc, *evidence, lines),
        Subject::Schedule(schedule) => push_refused_matches(*schedule, lines)?,
        Subject::Opening(MatchTask::Run(RunPlan { plan, .. }), roles) => push_broken_rules(
            one_line(alloc, plan.id)?.as_str(),
            [plan.start, plan.play],
            plan.players.len(),
            *roles,
            lines,
        )?,
        Subject::Opening(MatchTask::Check(plan), roles) => {
            push_broken_rules("check", [plan.start, plan.play], *roles, *roles, lines)?
        }
        Subject::Opening(MatchTask::Season(_), _) => {}
        Subject::Id(id) => push_broken_rules(one_line(alloc, *id)?.as_str(), [1, 1], 1, 1, lines)?,
    }
    Ok(())
}

/// Replaces control characters in lines that may quote files or arguments.
fn shown(alloc: Global, lines: &str) -> Result<String, AllocError> {
    let mut shown = String::new(alloc);
    for line in lines.lines() {
        writeln!(shown, "{}", Printable(line))?;
    }
    Ok(shown)
}

/// Writes the explanation if `are_wanted` is true. Ignores errors of the stream. If memory runs out, writes nothing.
pub fn explain<E: Write>(alloc: Global, are_wanted: bool, subject: &Subject<'_>, errors: &mut E) {
    let mut lines = String::new(alloc);
    if are_wanted && push_lines(alloc, subject, &mut lines).is_ok() {
        if let Ok(shown) = shown(alloc, lines.as_str()) {
            let mut pieces = Pieces { stream: errors };
            let _ = pieces.write_str(shown.as_str());
        }
    }
}
