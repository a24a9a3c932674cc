//! Opens, checks and repairs the file for the records of a season.
ghost use Rattle.std.specs.Prelude.{IfErr};
ghost use Rattle.command_faults.specs.Faults.{IsFileFault};
ghost use Rattle.command_faults.specs.declared.files.NamedFile.TheVariants.{Records};

use crate::faults::records_fault;
use command_faults::{Fault, FileFault, NamedFile, Printable, report_unusable_file};
use matches_to_play::{PartialRecord, partial_record};
use packed_rules::PackedGame;
use process_streams::{
    FILE_SIZE, LockedFiles, RecordsFault, RecordsFile, RecordsState, limit_of, open_records,
};
use std::alloc::Global;
use std::fmt::Write as _;
use std::io::Write;
use std::rt::Files;
use whole_streams::Pieces;

fn report_on_file<E: Write>(errors: &mut E, path: &str, what: &str) {
    let mut pieces = Pieces { stream: errors };
    let _ = writeln!(pieces, "ggp_manager: {} {what}", Printable(path));
}

/// Reports how the file has changed while this program appended records to it.
pub fn report_state<E: Write>(errors: &mut E, path: &str, state: RecordsState) {
    match state {
        RecordsState::Kept => {}
        RecordsState::Lost => report_on_file(
            errors,
            path,
            "is no longer the file that records were added to",
        ),
        RecordsState::Cut => report_on_file(
            errors,
            path,
            "was cut by another program while records were added to it",
        ),
        RecordsState::Grown => report_on_file(
            errors,
            path,
            "has lines that another program added: --records needs a file that no other program writes to",
        ),
    }
}

/// Reports that the end of a file was moved to another file. The end is the record in this line with its call log, or
/// an incomplete last line.
fn report_torn_end<E: Write>(errors: &mut E, path: &str, first: Option<u64>, torn: &str) {
    let (path, torn) = (Printable(path), Printable(torn));
    let mut pieces = Pieces { stream: errors };
    let _ = match first {
        Some(line) => writeln!(
            pieces,
            "ggp_manager: the last call log of {path} is incomplete: moved it and its record (line {line}) to {torn}; its match is played again"
        ),
        None => writeln!(
            pieces,
            "ggp_manager: the last line of {path} is incomplete: moved it to {torn}"
        ),
    };
}

/// Reports that the call log of a record in the middle of a file is incomplete.
fn report_partial<E: Write>(errors: &mut E, path: &str, line: u64) {
    let mut pieces = Pieces { stream: errors };
    let _ = writeln!(
        pieces,
        "ggp_manager: line {line} of {}: the call log of this record is incomplete: remove both from the file, or run without --history",
        Printable(path)
    );
}

/// Reports why records cannot be appended to the file. Returns the program's error.
fn refused<E: Write>(errors: &mut E, path: &str, fault: RecordsFault) -> Fault
    ensures { IsFileFault Records result }
{
    let fault_of_program = records_fault(fault);
    match fault_of_program {
        Fault::File(_, _) if matches!(fault, RecordsFault::NoRecords) => report_on_file(
            errors,
            path,
            "is not a file of records: it does not begin with {",
        ),
        Fault::File(_, why) => report_unusable_file(errors, path, why),
        _ => {}
    }
    fault_of_program
}

/// Opens the file for appending records.
pub fn records_file<'a, F: LockedFiles, E: Write>(
    files: &'a F,
    alloc: Global,
    path: &'a str,
    errors: &mut E,
) -> Result<RecordsFile<'a, F, <F as Files>::File>, Fault>
    ensures fault { IfErr result (IsFileFault Records) }
{
    let limit = limit_of(files, alloc, FILE_SIZE);
    match open_records(files, path, limit) {
        Ok(file) => Ok(file),
        Err(fault) => Err(refused(errors, path, fault)),
    }
}

/// The line number of the last record in the file, if its call log is incomplete. If an earlier record has an
/// incomplete call log, this returns an error.
pub fn last_partial<F: Files, E: Write>(
    files: &F,
    alloc: Global,
    game: &PackedGame,
    path: &str,
    errors: &mut E,
) -> Result<Option<u64>, Fault>
    ensures fault { IfErr result (IsFileFault Records) }
{
    match partial_record(files, alloc, game, path)? {
        None => Ok(None),
        Some(
            PartialRecord {
                line,
                is_last: true,
            },
        ) => Ok(Some(line)),
        Some(PartialRecord { line, .. }) => {
            report_partial(errors, path, line);
            Err(Fault::File(NamedFile::Records, FileFault::Partial))
        }
    }
}

/// Moves the incomplete end of the file to another file, and reports this. The end is the last record, which is in the
/// line `first`, with its call log; or, without `first`, a last line without a line feed.
pub fn mend_records<F: LockedFiles, E: Write>(
    file: &mut RecordsFile<'_, F, <F as Files>::File>,
    alloc: Global,
    first: Option<u64>,
    path: &str,
    errors: &mut E,
) -> Result<(), Fault>
    ensures fault { IfErr result (IsFileFault Records) }
{
    match file.mend(alloc, first) {
        Ok(None) => Ok(()),
        Ok(Some(torn)) => {
            report_torn_end(errors, path, first, torn.as_str());
            Ok(())
        }
        Err(fault) => Err(refused(errors, path, fault)),
    }
}
