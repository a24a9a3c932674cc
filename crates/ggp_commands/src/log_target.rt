//! Opens the log: a file or standard error.
ghost use Rattle.std.specs.Prelude.{IfErr};
ghost use Rattle.ggp_commands.specs.Tasks.{HasNoLog};

use command_faults::{Fault, FileFault, NamedFile};
use process_streams::{FILE_SIZE, LogFile, limit_of, open_log};
use std::alloc::Global;
use std::io::ErrorKind;
use std::rt::Files;

/// The target of the log.
#[derive(Drop)]
pub enum LogTarget<L> {
    Nowhere,
    /// Standard error.
    Errors,
    File(L),
}

/// Opens the log file. A dash means standard error.
pub fn log_target<F: Files>(
    files: &F,
    alloc: Global,
    log: Option<&str>,
) -> Result<LogTarget<LogFile<F::File>>, Fault>
    ensures { IfErr result (HasNoLog log.entry) }
{
    let path = match log {
        None => return Ok(LogTarget::Nowhere),
        Some("-") => return Ok(LogTarget::Errors),
        Some(path) => path,
    };
    match open_log(files, path, limit_of(files, alloc, FILE_SIZE)) {
        Ok(file) => Ok(LogTarget::File(file)),
        Err(error) => match error.kind() {
            ErrorKind::OutOfMemory => Err(Fault::Memory),
            _ => Err(Fault::File(NamedFile::Log, FileFault::Unopened)),
        },
    }
}
