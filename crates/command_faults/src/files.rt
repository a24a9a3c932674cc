//! Reads the files that a command line names.
ghost use Rattle.std.specs.Prelude.{◌≡◌, ◌<◌, IfErr};
ghost use Rattle.std.specs.IoError.{error_kind};
ghost use Rattle.game_core.specs.Limits.{max_bytes};
ghost use Rattle.command_faults.specs.Faults.{IsFileFault, IsNotOfSize, NamesSize, input_file_fault, opening_fault, reading_fault};
ghost use Rattle.command_faults.specs.Limits.{max_bytes_with_large};

use crate::fault::Fault;
use crate::printable::Printable;
use game_core::{Counted, Limits};
use std::alloc::Global;
use std::fmt::Write as _;
use std::io::{ErrorKind, Write};
use std::rt::Files;
use std::{fmt, fs, io};
use whole_streams::{InputFault, Pieces, read_to_end};

/// How many bytes a file may have.
#[derive(Clone, Copy)]
pub struct MaxBytes {
    /// The limit with the options of the command line.
    pub bytes: u32,
    /// The limit with `--large`, if the option is not given but would raise the limit.
    pub with_large: Option<u32>,
}

impl MaxBytes {
    /// The limit for a file that `--large` does not affect.
    pub fn fixed(bytes: u32) -> MaxBytes
        ensures { result.bytes ≡ bytes }
    {
        MaxBytes {
            bytes,
            with_large: None,
        }
    }

    /// The limit for a description within these limits.
    pub fn of_description(limits: Limits) -> MaxBytes
        ensures bytes { result.bytes ≡ max_bytes limits }
        ensures with_large { result.with_large ≡ max_bytes_with_large limits }
    {
        match limits {
            Limits::Usual => MaxBytes {
                bytes: Limits::Usual.bytes() as u32,
                with_large: Some(Limits::Large.bytes() as u32),
            },
            Limits::Large => MaxBytes {
                bytes: Limits::Large.bytes() as u32,
                with_large: None,
            },
        }
    }
}

impl fmt::Display for MaxBytes {
    fn fmt<F: fmt::Write>(&self, f: &mut fmt::Formatter<F>) -> fmt::Result {
        write!(f, "at most {} are accepted", self.bytes)?;
        match self.with_large {
            Some(bytes) => write!(f, ", or {bytes} with --large"),
            None => Ok(()),
        }
    }
}

/// The largest number of bytes in a file of players' rules.
pub const MAX_PLAYER_RULES: u32 = 1_048_576;

/// The largest number of bytes in a line of records or call logs: 64 GiB. No record of a match is that long.
pub const MAX_LINE: usize = 68_719_476_736;

/// The purpose of a file on the command line.
#[derive(Clone, Copy)]
pub enum NamedFile {
    /// The game's rules.
    Rules,
    /// The rules that players get instead of the game's own.
    PlayerRules,
    /// The records of finished matches.
    Records,
    /// The input file, which replaces standard input.
    Input,
    /// The log of the messages.
    Log,
    /// The call log of a desk that listens.
    History,
}

impl NamedFile {
    /// The beginning of the message for an error of this file.
    pub fn words(self) -> &'static str {
        match self {
            NamedFile::Rules => "bad description: ",
            NamedFile::PlayerRules => "bad description for players: ",
            NamedFile::Records => "bad file of records: ",
            NamedFile::Input => "bad input: ",
            NamedFile::Log => "bad log: ",
            NamedFile::History => "bad file of calls: ",
        }
    }
}

/// Why a file cannot be read or written.
#[derive(Clone, Copy)]
pub enum FileFault {
    NoFile,
    /// A new file cannot be created, because the path already exists.
    Exists,
    Unopened,
    Unread,
    Unwritten,
    /// The file is this many bytes long, which is more than the limit.
    TooLarge(u64, MaxBytes),
    /// The file's content, or one of its lines, is longer than the limit.
    TooLong,
    /// The file is a directory, a pipe or a device.
    NotRegular,
    /// Another program is appending to the file.
    InUse,
    /// The file's incomplete end cannot be moved to another file.
    Unmended,
    /// The file contains a record with an incomplete call log.
    Partial,
    /// Another file or stream of the command is the same file.
    Shared,
}

impl FileFault {
    /// The message, or its beginning.
    fn words(self) -> &'static str {
        match self {
            FileFault::NoFile => "no such file",
            FileFault::Exists => "the file exists",
            FileFault::Unopened => "the file can't be opened",
            FileFault::Unread => "the file can't be read",
            FileFault::Unwritten => "the file can't be written",
            FileFault::TooLarge(_, _) => "it has ",
            FileFault::TooLong => "the file is too long",
            FileFault::NotRegular => "it is not a regular file",
            FileFault::InUse => "another program adds to the file",
            FileFault::Unmended => "its end is cut off, and can't be moved",
            FileFault::Partial => "the call log of a record is incomplete",
            FileFault::Shared => "another file or stream of this command is the same file",
        }
    }
}

impl fmt::Display for FileFault {
    fn fmt<F: fmt::Write>(&self, f: &mut fmt::Formatter<F>) -> fmt::Result {
        f.write_str(self.words())?;
        match *self {
            FileFault::TooLarge(size, limit) => write!(f, "{size} bytes; {limit}"),
            _ => Ok(()),
        }
    }
}

/// Reports why the file at this path cannot be used. Ignores errors of the stream.
pub fn report_unusable_file<E: Write>(errors: &mut E, path: &str, why: FileFault) {
    let mut pieces = Pieces { stream: errors };
    let _ = writeln!(
        pieces,
        "ggp_manager: {} can't be used: {why}",
        Printable(path)
    );
}

fn opening_fault(named: NamedFile, error: io::Error) -> Fault
    ensures exact { result ≡ opening_fault named (error_kind error) }
    ensures file { IsFileFault named result }
    ensures not_size { IsNotOfSize result }
{
    match error.kind() {
        ErrorKind::OutOfMemory => Fault::Memory,
        ErrorKind::NotFound => Fault::File(named, FileFault::NoFile),
        _ => Fault::File(named, FileFault::Unopened),
    }
}

/// Opens the file at this path. `named` is the purpose of the file on the command line.
pub fn opened<F: Files>(files: &F, named: NamedFile, path: &str) -> Result<Counted<F::File>, Fault>
    ensures fault { IfErr result (IsFileFault named) }
    ensures not_size { IfErr result IsNotOfSize }
{
    match fs::open(files, path) {
        Ok(file) => Ok(Counted::new(file)),
        Err(error) => Err(opening_fault(named, error)),
    }
}

/// Opens the regular file at this path. Refuses directories, pipes and devices, because opening a pipe may block.
pub fn opened_regular<F: Files>(
    files: &F,
    named: NamedFile,
    path: &str,
) -> Result<Counted<F::File>, Fault>
    ensures { IfErr result (IsFileFault named) }
{
    match fs::metadata(files, path) {
        Ok(found) if !found.is_file() => Err(Fault::File(named, FileFault::NotRegular)),
        _ => opened(files, named, path),
    }
}

/// The error for a file that cannot be read.
pub fn reading_fault(named: NamedFile, fault: InputFault) -> Fault
    ensures exact { result ≡ reading_fault named fault }
    ensures file { IsFileFault named result }
    ensures not_size { IsNotOfSize result }
{
    match fault {
        InputFault::ReadFault => Fault::File(named, FileFault::Unread),
        InputFault::TooLong => Fault::File(named, FileFault::TooLong),
        InputFault::Memory => Fault::Memory,
    }
}

/// Turns an error of standard input into the same error of the input file.
pub fn input_file_fault(fault: Fault) -> Fault
    ensures { result ≡ input_file_fault fault }
{
    match fault {
        Fault::ReadFault => Fault::File(NamedFile::Input, FileFault::Unread),
        Fault::InputTooLong => Fault::File(NamedFile::Input, FileFault::TooLong),
        fault => fault,
    }
}

/// The size of a file that is larger than the limit. If the size is not known, for example of a pipe, this is the limit
/// plus 1.
fn size_above<F: Files>(files: &F, path: &str, limit: u32) -> u64
    ensures { limit < result }
{
    let least = u64::from(limit) + 1;
    match fs::metadata(files, path) {
        Ok(found) => found.len().max(least),
        Err(_) => least,
    }
}

/// Reads a file of at most `limit` bytes.
pub fn file_text<F: Files>(
    files: &F,
    alloc: Global,
    named: NamedFile,
    path: &str,
    limit: MaxBytes,
) -> Result<Vec<u8>, Fault>
    ensures fault { IfErr result (IsFileFault named) }
    ensures too_large { IfErr result (NamesSize limit) }
{
    let mut file = match opened(files, named, path) {
        Ok(file) => file,
        Err(fault) => return Err(fault),
    };
    match read_to_end(alloc, &mut file, limit.bytes as usize) {
        Ok(text) => Ok(text),
        Err(InputFault::TooLong) => {
            let size = size_above(files, path, limit.bytes);
            Err(Fault::File(named, FileFault::TooLarge(size, limit)))
        }
        Err(fault) => Err(reading_fault(named, fault)),
    }
}
