//! The log file. The program only appends to it.
ghost use Rattle.std.specs.Prelude.{None, IfOk, take};
ghost use Rattle.std.specs.Io.{WritesAtMost};
ghost use Rattle.std.specs.Io.KnownBytes.{Appends, WriteAppends};

use crate::limits::is_full;
use std::fs::{File, OpenFile, OpenOptions};
use std::io;
use std::io::{Error, ErrorKind, Read, Seek, SeekFrom, Write};
use std::rt::Files;

/// A log file, opened for appending.
#[derive(Drop)]
pub struct LogFile<F> {
    file: F,
    /// The size limit of the file in bytes.
    limit: Option<u64>,
}

impl<F: Write + OpenFile> Write for LogFile<F> {
    ghost contents = { λ log. F.contents log.file };

    fn write(&mut self, bytes: &[u8]) -> io::Result<usize> {
        if let Some(limit) = self.limit {
            if is_full(limit, self.file.metadata()) {
                return Err(Error::from(ErrorKind::FileTooLarge));
            }
        }
        self.file.write(bytes)
    }

    fn flush(&mut self) -> io::Result<()> {
        self.file.flush()
    }
}

/// Whether a file of this length ends without a line feed, because the program that wrote it was interrupted.
pub(crate) fn is_torn<F: Read + Seek>(file: &mut F, length: u64) -> io::Result<bool> {
    file.seek(SeekFrom::Start(length.saturating_sub(1)))?;
    let mut last = [0u8; 1];
    file.read_exact(&mut last)?;
    Ok(last[0] != b'\n')
}

/// Opens the log file at this path for appending, and creates the file if it does not exist. If the last line of the
/// file has no line feed, appends one.
pub fn open_log<R: Files>(
    files: &R,
    path: &str,
    limit: Option<u64>,
) -> io::Result<LogFile<R::File>> {
    let mut options = OpenOptions::new();
    options.append(true).create(true);
    let file = options.open(files, path)?;
    let found = file.metadata()?;
    let mut log = LogFile { file, limit };
    if found.is_file() && found.len() > 0 {
        // If the file cannot be read, this assumes that its last line is complete.
        if let Ok(mut file) = File::open(files, path) {
            if is_torn(&mut file, found.len()).unwrap_or(false) {
                let _ = log.write(b"\n");
            }
        }
    }
    Ok(log)
}
