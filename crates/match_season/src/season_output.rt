//! Writes the record of each match of a season, followed by its call log if the form asks for it.
ghost use Rattle.std.specs.Prelude.{◌≡◌, ◌<◌, ◌≤◌, ◌+◌, ◌-◌, [], ℕ, false, true, IfErr, IfOk, OnErr, OnOk, None, Some, if◌then◌else◌, is_some, length, not, replicate, slice_set};
ghost use Rattle.std.specs.Io.KnownBytes.{Appends};
ghost use Rattle.std.specs.List.{AllWithin, HoldsAt};
ghost use Rattle.match_plans.specs.declared.season_form.RecordOrder.TheVariants.{OfSchedule};
ghost use Rattle.whole_streams.specs.Streams.{AppendsPart};
ghost use Rattle.match_season.specs.Seasons.{ArePlaced, Settles, HasAll, Rises, WritesMatches, WritesMore, WritesMoreAndPart, WritesPart, WritesUpTo, faults_after, is_open, places_of, settled_on};
ghost use Rattle.match_season.specs.declared.season_output.SeasonFault.TheVariants.{WriteFault as write_fault};

use crate::results::{MatchResult, OutputBrand, Results};
use crate::written::Written;
use game_core::Counted;
use match_plans::{MatchPlan, RecordOrder};
use match_play::EndedMatch;
use std::alloc::{AllocError, Global};
use std::fmt;
use std::io::Write;
use std::sync::{Mutex, Wait};
use whole_streams::{WriteFault, write_all};

/// Why a season was not played to its end.
#[derive(Clone, Copy)]
pub enum SeasonFault {
    /// A record or a call log cannot be written.
    WriteFault,
    /// Out of memory.
    Memory,
}

impl From<WriteFault> for SeasonFault {
    ghost use Rattle.std.specs.Prelude.{◌≡◌};
    ghost use Rattle.match_season.specs.declared.season_output.SeasonFault.TheVariants.{WriteFault};

    ghost from_gives = { λ _ given. given ≡ WriteFault };

    fn from(_: WriteFault) -> SeasonFault {
        SeasonFault::WriteFault
    }
}

impl From<AllocError> for SeasonFault {
    ghost use Rattle.std.specs.Prelude.{◌≡◌};
    ghost use Rattle.match_season.specs.declared.season_output.SeasonFault.TheVariants.{Memory};

    ghost from_gives = { λ _ given. given ≡ Memory };

    fn from(_: AllocError) -> SeasonFault {
        SeasonFault::Memory
    }
}

/// Receives the reports on matches without a record.
pub trait ReportsMissing {
    /// Reports why the match with this id has no record.
    fn report_missing<F: fmt::Display>(&mut self, id: &str, why: &F);
}

/// Reports matches by their index in the schedule.
#[derive(Drop)]
pub struct Reports<'r, 'p, 'a, 'e, R, E> {
    pub rt: &'r R,
    pub plans: &'p [MatchPlan<'a>],
    pub errors: &'e Mutex<E>,
}

impl<R: Wait, E: ReportsMissing> Reports<'_, '_, '_, '_, R, E> {
    fn report<F: fmt::Display>(&self, place: usize, why: &F) {
        if let Some(plan) = self.plans.get(place) {
            self.errors.lock(self.rt).report_missing(plan.id, why);
        }
    }

    /// Reports `no record` for each match that was neither written nor reported before.
    pub fn report_rest(&self, written: &Written) {
        for (place, is_settled) in written.is_settled.iter().enumerate() {
            if !*is_settled {
                self.report(place, &"no record");
            }
        }
    }
}

/// Writes the output of the match with this index, unless the match is settled.
fn write_ended<W: Write>(
    place: usize,
    ended: &EndedMatch,
    written: &mut Written,
    writer: &mut Counted<W>,
) -> Result<(), SeasonFault>
    ensures written { OnOk result (Appends (W.contents writer.old.stream) (W.contents writer.new.stream) (if is_open written.old.is_settled.items place then ended.now.text else [])) }
    ensures settled { OnOk result (Settles written.old written.new place (if is_open written.old.is_settled.items place then 1 else 0)) }
    ensures err { OnErr result (written.new ≡ written.old) }
    ensures at_fault { IfErr result (λ fault. (fault ≡ write_fault) × (is_open written.old.is_settled.items place ≡ true) × AppendsPart (W.contents writer.old.stream) (W.contents writer.new.stream) ended.now.text) }
    ensures faults { writer.new.faults ≡ faults_after result writer.old.faults }
{
    if !written.is_open(place) {
        return Ok(());
    }
    write_all(writer, ended.text.as_slice())?;
    written.records = written.records.saturating_add(1);
    written.settle(place);
    Ok(())
}

/// Writes the output of a match, or reports why it has no record.
fn write_outcome<N: OutputBrand, R: Wait, W: Write, E: ReportsMissing>(
    reports: &Reports<'_, '_, '_, '_, R, E>,
    over: MatchResult<N>,
    written: &mut Written,
    writer: &mut Counted<W>,
) -> Result<(), SeasonFault>
    ensures written { OnOk result (WritesMatches N.is_output (places_of written.old over.place over.outcome) (W.contents writer.old.stream) (W.contents writer.new.stream)) }
    ensures settled { OnOk result (Settles written.old written.new over.place (length (places_of written.old over.place over.outcome))) }
    ensures err { OnErr result (written.new ≡ written.old) }
    ensures at_fault { IfErr result (λ fault. (fault ≡ write_fault) × (is_open written.old.is_settled.items over.place ≡ true) × WritesPart N.is_output over.place (W.contents writer.old.stream) (W.contents writer.new.stream)) }
    ensures faults { writer.new.faults ≡ faults_after result writer.old.faults }
{
    let MatchResult {
        place,
        outcome,
        of: _,
    } = over;
    match outcome {
        Ok(ended) => write_ended(place, &ended, written, writer),
        Err(fault) => {
            reports.report(place, &fault);
            written.settle(place);
            Ok(())
        }
    }
}

/// Writes the stored results, from the index `next` up to the first match that is not over. Returns the index of that
/// match.
fn write_waiting<N: OutputBrand, R: Wait, W: Write, E: ReportsMissing>(
    reports: &Reports<'_, '_, '_, '_, R, E>,
    waiting: &mut [Option<MatchResult<N>>],
    next: usize,
    written: &mut Written,
    writer: &mut Counted<W>,
) -> Result<usize, SeasonFault>
    ensures written { IfOk result (λ place. WritesMore N.is_output (λ places. ArePlaced (λ over. over.place) waiting.old → Rises next places (next + (place - next))) written.old written.new (W.contents writer.old.stream) (W.contents writer.new.stream)) }
    ensures place { IfOk result (λ place. (place ≤ length waiting.old) × (next ≤ length waiting.old → next ≤ place)) }
    ensures over { IfOk result (λ place. AllWithin (λ it. is_some it ≡ true) waiting.old next place) }
    ensures stops { IfOk result (λ place. place < length waiting.old → HoldsAt (λ it. is_some it ≡ false) waiting.old place) }
    ensures placed { ArePlaced (λ over. over.place) waiting.old → ArePlaced (λ over. over.place) waiting.new }
    ensures settled { ArePlaced (λ over. over.place) waiting.old → IfOk result (λ place. written.new.is_settled.items ≡ settled_on written.old.is_settled.items next (place - next)) }
    ensures at_fault { IfErr result (λ fault. (fault ≡ write_fault) × WritesMoreAndPart N.is_output (λ places. ArePlaced (λ over. over.place) waiting.old → Rises next places (length waiting.old)) written.old (W.contents writer.old.stream) (W.contents writer.new.stream)) }
    ensures faults { writer.new.faults ≡ faults_after result writer.old.faults }
{
    let count = waiting.len();
    for place in next..count {
        let Some(over) = waiting[place].take() else {
            return Ok(place);
        };
        write_outcome(reports, over, written, writer)?;
    }
    Ok(count)
}

fn keep<N: OutputBrand>(waiting: &mut [Option<MatchResult<N>>], over: MatchResult<N>)
    ensures kept { waiting.new ≡ slice_set waiting.old over.place (Some over) }
    ensures placed { ArePlaced (λ over. over.place) waiting.old → ArePlaced (λ over. over.place) waiting.new }
{
    let place = over.place;
    if place < waiting.len() {
        waiting[place] = Some(over);
    }
}

fn none_waiting<N: OutputBrand>(
    alloc: Global,
    count: usize,
) -> Result<Vec<Option<MatchResult<N>>>, AllocError>
    ensures { IfOk result (λ waiting. waiting.items ≡ replicate count None) }
{
    let mut waiting = Vec::with_capacity(alloc, count)?;
    for _place in 0..count {
        waiting.push(None)?;
    }
    Ok(waiting)
}

/// The index of the first stored result to write after the match with the index `place` is over.
fn first_to_write(order: RecordOrder, next: usize, place: usize) -> usize
    ensures { order ≡ OfSchedule → result ≡ next }
{
    match order {
        RecordOrder::OfSchedule => next,
        RecordOrder::OfEnds => place,
    }
}

/// Writes the outputs of the matches in this order, as their results come in.
pub fn write_season<N: OutputBrand, R: Wait, W: Write, E: ReportsMissing>(
    alloc: Global,
    order: RecordOrder,
    reports: &Reports<'_, '_, '_, '_, R, E>,
    results: &mut Results<'_, N>,
    written: &mut Written,
    writer: &mut Counted<W>,
) -> Result<(), SeasonFault>
    ensures all { OnOk result (HasAll results.new.is_closed written.new) }
    ensures written { OnOk result (WritesMore N.is_output (λ places. order ≡ OfSchedule → Rises 0 places (length written.old.is_settled.items)) written.old written.new (W.contents writer.old.stream) (W.contents writer.new.stream)) }
    ensures settled { order ≡ OfSchedule → OnOk result ((count : ℕ) × (written.new.is_settled.items ≡ settled_on written.old.is_settled.items 0 count)) }
    ensures at_fault { IfErr result (WritesUpTo N.is_output order (length written.old.is_settled.items) (W.contents writer.old.stream) (W.contents writer.new.stream)) }
    ensures faults { writer.new.faults ≡ faults_after result writer.old.faults }
{
    let count = written.is_settled.len();
    let mut waiting = none_waiting(alloc, count)?;
    let mut next = 0;
    for _ in reports.rt.forever() {
        let Some(over) = results.next(reports.rt, written) else {
            break;
        };
        let first = first_to_write(order, next, over.place);
        keep(&mut waiting, over);
        next = write_waiting(reports, &mut waiting, first, written, writer)?;
    }
    Ok(())
}
