//! Checks records.
ghost use Rattle.std.specs.Prelude.{◌≡◌, ℕ, List, IfErr, IfOk, OnOk};
ghost use Rattle.std.specs.Io.KnownBytes.{Consumes, Appends, IsAtEnd};
ghost use Rattle.std.specs.Str.Lines.{lines};
ghost use Rattle.match_record.specs.LawfulRecord.{IsLawfulRecord};
ghost use Rattle.game_commands.specs.declared.verdicts.Verdict.{Verdict as LineVerdict};
ghost use Rattle.game_commands.specs.Verdicts.{IsVerdict, AreVerdicts, verdict_line, verdict_lines, count_skipped, count_unlawful};
ghost use Rattle.whole_streams.specs.Lines.{BeginsWithLines};
ghost use Rattle.game_commands.specs.Checks.{CheckFails, CheckStops, IsNotWritten, LineFails, TellsFault};

use crate::evidence::Evidence;
use crate::verdicts::{Verdict, count_skipped, count_unlawful, verdict_line, verdict_on};
use command_faults::{Fault, MAX_LINE};
use game_core::{Counted, Game};
use match_record::VerifyFault;
use record_check::verify;
use std::alloc::Global;
use std::io::{Read, Write};
use whole_streams::laws::lines_are_taken;
use whole_streams::{LineBuffer, NextLine, read_to_end, write_all};

/// The largest size of a record, in bytes, if the input is one record: 16 MiB.
const MAX_RECORD: usize = 16_777_216;

fn write_verdict<W: Write>(
    alloc: Global,
    is_json: bool,
    verdict: Verdict,
    writer: &mut Counted<W>,
) -> Result<(), Fault>
    ensures whole { OnOk result (Appends (W.contents writer.old.stream) (W.contents writer.new.stream) (verdict_line is_json verdict)) }
    ensures no_fault { OnOk result (writer.new.faults ≡ writer.old.faults) }
    ensures fails { IfErr result (λ fault. IsNotWritten W.contents is_json verdict fault writer.old writer.new) }
{
    let line = verdict_line(alloc, is_json, verdict)?;
    Ok(write_all(writer, line.as_bytes())?)
}

/// The error for a record that is not lawful. If the output is JSON, writes the verdict first.
fn write_unlawful<W: Write>(
    alloc: Global,
    is_json: bool,
    fault: VerifyFault,
    writer: &mut Counted<W>,
) -> Fault
    ensures { TellsFault W.contents is_json fault result writer.old writer.new }
{
    if !is_json {
        return Fault::NotLawful(fault);
    }
    match write_verdict(alloc, true, Verdict::Unlawful(fault), writer) {
        Ok(()) => Fault::NotLawful(fault),
        Err(other) => other,
    }
}

/// Reads a record, checks it against the game, and writes that it is lawful. If the record is not lawful, the error
/// names the first check that failed, and this writes the verdict only as JSON. Stores a text that is not JSON as
/// evidence.
pub fn check_record<G: Game, R: Read, W: Write>(
    alloc: Global,
    is_json: bool,
    game: &G,
    reader: &mut Counted<R>,
    writer: &mut Counted<W>,
    evidence: &mut Evidence,
) -> Result<(), Fault>
    ensures lawful { OnOk result ((text : List ℕ)
        × Consumes (R.remaining reader.old.stream) (R.remaining reader.new.stream) text
        × IsAtEnd (R.remaining reader.new.stream)
        × IsLawfulRecord (G.rules game.now) text
        × Appends (W.contents writer.old.stream) (W.contents writer.new.stream) (verdict_line is_json LineVerdict.Lawful)) }
    ensures no_fault { OnOk result ((reader.new.faults ≡ reader.old.faults) × (writer.new.faults ≡ writer.old.faults)) }
    ensures fails { IfErr result (λ fault. (text : List ℕ)
        × Consumes (R.remaining reader.old.stream) (R.remaining reader.new.stream) text
        × CheckFails R.remaining W.contents is_json (G.rules game.now) fault text reader.old reader.new writer.old writer.new) }
{
    let record = read_to_end(alloc, reader, MAX_RECORD)?;
    match verify(alloc, game, &record) {
        Ok(()) => write_verdict(alloc, is_json, Verdict::Lawful, writer),
        Err(VerifyFault::Memory) => Err(Fault::Memory),
        Err(fault) => {
            let told = write_unlawful(alloc, is_json, fault, writer);
            if let VerifyFault::NotJson = fault {
                *evidence = Evidence::Record(record);
            }
            Err(told)
        }
    }
}

/// Writes the verdict on a line, and returns the verdict. In plain text, writes nothing for a line of a call log.
fn check_line<G: Game, W: Write>(
    alloc: Global,
    is_json: bool,
    game: &G,
    line: &[u8],
    writer: &mut Counted<W>,
) -> Result<Verdict, Fault>
    ensures verdict { IfOk result (λ verdict. IsVerdict (G.rules game.now) line.now verdict
        × Appends (W.contents writer.old.stream) (W.contents writer.new.stream) (verdict_line is_json verdict)) }
    ensures no_fault { OnOk result (writer.new.faults ≡ writer.old.faults) }
    ensures fails { IfErr result (λ fault. LineFails W.contents is_json (G.rules game.now) fault line.now writer.old writer.new) }
{
    let verdict = verdict_on(alloc, game, line)?;
    write_verdict(alloc, is_json, verdict, writer)?;
    Ok(verdict)
}

/// How many lines were not lawful, and how many were skipped.
#[derive(Clone, Copy)]
pub struct LineCounts {
    /// The number of lines that are neither lawful records nor lines of call logs.
    pub unlawful: u64,
    /// The number of lines of call logs.
    pub skipped: u64,
}

/// Checks each line of the input as a record of the game, and writes the verdict before it reads the next line. Skips
/// the lines of call logs. Only one line is in memory at a time.
pub fn check_records<G: Game, R: Read, W: Write>(
    alloc: Global,
    is_json: bool,
    game: &G,
    reader: &mut Counted<R>,
    writer: &mut Counted<W>,
) -> Result<LineCounts, Fault>
    ensures verdicts { IfOk result (λ counts. (input : List ℕ) × (verdicts : List LineVerdict)
        × Consumes (R.remaining reader.old.stream) (R.remaining reader.new.stream) input
        × IsAtEnd (R.remaining reader.new.stream)
        × AreVerdicts (G.rules game.now) (lines input) verdicts
        × Appends (W.contents writer.old.stream) (W.contents writer.new.stream) (verdict_lines is_json verdicts)
        × (counts.unlawful ≡ count_unlawful verdicts)
        × (counts.skipped ≡ count_skipped verdicts)) }
    ensures no_fault { OnOk result ((reader.new.faults ≡ reader.old.faults) × (writer.new.faults ≡ writer.old.faults)) }
    ensures stops { IfErr result (λ fault. (given : List ℕ) × (first : List (List ℕ)) × (left : List ℕ) × (verdicts : List LineVerdict)
        × Consumes (R.remaining reader.old.stream) (R.remaining reader.new.stream) given
        × BeginsWithLines given first left
        × AreVerdicts (G.rules game.now) first verdicts
        × CheckStops R.remaining W.contents is_json (G.rules game.now) fault verdicts left reader.old reader.new writer.old writer.new) }
{
    lines_are_taken();
    let mut buffer = LineBuffer::new();
    let mut unlawful = 0;
    let mut skipped = 0;
    for place in 0..u64::MAX {
        match buffer.next_line(alloc, reader, MAX_LINE) {
            Ok(NextLine::Ended(line)) => match check_line(alloc, is_json, game, &line, writer) {
                Ok(verdict) => {
                    unlawful += count_unlawful(verdict);
                    skipped += count_skipped(verdict);
                }
                Err(fault) => return Err(fault),
            },
            Ok(NextLine::Last(line)) => match check_line(alloc, is_json, game, &line, writer) {
                Ok(verdict) => {
                    return Ok(LineCounts {
                        unlawful: unlawful + count_unlawful(verdict),
                        skipped: skipped + count_skipped(verdict),
                    });
                }
                Err(fault) => return Err(fault),
            },
            Ok(NextLine::Nothing) => return Ok(LineCounts { unlawful, skipped }),
            Err(fault) => return Err(Fault::from(fault)),
        }
    }
    Err(Fault::InputTooLong)
}
