//! Appends records to a file.
ghost use Rattle.std.specs.Prelude.{◌≡◌, ◌≤◌, None, IfOk, IfSome, take};
ghost use Rattle.std.specs.Io.{WritesAtMost};
ghost use Rattle.std.specs.Io.KnownBytes.{Appends, WriteAppends};
ghost use Rattle.process_streams.specs.Records.{EndsLine, may_hold_records};

use crate::log_file::is_torn;
use std::alloc::Global;
use std::fs::{File, Metadata, OpenFile, OpenOptions, TryLockError};
use std::io::{Error, ErrorKind, Read, Seek, SeekFrom, Write};
use std::os::unix::fs::MetadataExt;
use std::rt::Files;
use std::{fs, io};

/// The number of bytes to read at once.
const PIECE: usize = 16_384;

/// The largest N in the name `FILE.torn.N`.
const MOST_TORN: usize = 1_000;

/// Why records cannot be appended to a file.
#[derive(Clone, Copy)]
pub enum RecordsFault {
    /// The file cannot be opened, created or locked, or its path named another file after it was opened.
    Unopened,
    /// The path names a directory, a pipe or a device.
    NotRegular,
    /// Another program has locked the file.
    InUse,
    /// The file's first byte cannot be read.
    Unread,
    /// The file does not begin with `{`, as a record does.
    NoRecords,
    /// The incomplete end of the file cannot be moved to another file.
    Unmended,
    /// Out of memory.
    Memory,
}

/// A file system with locks, so that only one program at a time appends to a file.
pub trait LockedFiles: Files {
    /// Locks an open file until it is closed. Returns `Ok(false)` if another program has locked it.
    fn lock(&self, file: &Self::File) -> io::Result<bool>;
}

impl LockedFiles for HostRuntime {
    fn lock(&self, file: &File) -> io::Result<bool> {
        match file.try_lock() {
            Ok(()) => Ok(true),
            Err(TryLockError::WouldBlock) => Ok(false),
            Err(TryLockError::Error(error)) => Err(error),
        }
    }
}

/// Whether two files are the same file.
fn is_same(one: &Metadata, other: &Metadata) -> bool {
    one.dev() == other.dev() && one.ino() == other.ino()
}

/// The length in bytes of the file that the path names now. Returns an error if this is not the opened file.
fn length_of(opened: &Metadata, named: io::Result<Metadata>) -> io::Result<u64> {
    match named {
        Ok(named) if is_same(&named, opened) => Ok(named.len()),
        Ok(_) => Err(Error::from(ErrorKind::NotFound)),
        Err(error) => Err(error),
    }
}

/// How a file has changed while this program appended records to it.
#[derive(Clone, Copy)]
pub enum RecordsState {
    /// Only this program has changed the file.
    Kept,
    /// The file was removed, renamed or replaced, so its path no longer names it.
    Lost,
    /// Another program has shortened the file.
    Cut,
    /// Another program has appended to the file.
    Grown,
}

/// A file that is open for appending records. A write succeeds only if the bytes are on the disk and the path still
/// names this file. If another program has appended to the file and left its last line incomplete, a write first ends
/// that line.
#[derive(Drop)]
pub struct RecordsFile<'a, R, F> {
    files: &'a R,
    path: &'a str,
    file: F,
    /// The file's metadata when it was opened.
    opened: Metadata,
    /// The size limit of the file in bytes.
    limit: Option<u64>,
    /// The file's length in bytes when it was last opened, repaired or written.
    length: u64,
    /// Whether another program has appended to the file.
    is_shared: bool,
}

impl<R: Files, F> RecordsFile<'_, R, F> {
    fn length_now(&self) -> io::Result<u64> {
        length_of(&self.opened, fs::metadata(self.files, self.path))
    }

    /// Compares the file with its state after the last write.
    pub fn state(&self) -> RecordsState {
        match self.length_now() {
            Err(_) => RecordsState::Lost,
            Ok(length) if length < self.length => RecordsState::Cut,
            Ok(length) if self.is_shared || length > self.length => RecordsState::Grown,
            Ok(_) => RecordsState::Kept,
        }
    }

    /// Ends the file's last line, after another program has changed the file to this length. Returns an error if the
    /// file is shorter than before.
    fn end_line(&self, length: u64) -> io::Result<()> {
        if length < self.length {
            return Err(Error::from(ErrorKind::UnexpectedEof));
        }
        let mut options = OpenOptions::new();
        options.read(true).append(true);
        let mut file = options.open(self.files, self.path)?;
        if is_torn(&mut file, length)? {
            file.write_all(b"\n")?;
        }
        Ok(())
    }
}

impl<R: Files, F: Write + OpenFile> Write for RecordsFile<'_, R, F> {
    fn write(&mut self, bytes: &[u8]) -> io::Result<usize>
        ensures bound { WritesAtMost result bytes.now }
        ensures bytes { WriteAppends None None result bytes.now }
        ensures added { IfOk result (λ count. Appends (F.contents self.old.file) (F.contents self.new.file) (take count bytes.now)) }
    {
        let mut begin = self.length_now()?;
        if begin != self.length {
            self.end_line(begin)?;
            self.is_shared = true;
            begin = self.length_now()?;
        }
        if let Some(limit) = self.limit {
            // Writing one more byte would make a signal end the process.
            if begin >= limit {
                return Err(Error::from(ErrorKind::FileTooLarge));
            }
        }
        let count = self.file.write(bytes)?;
        self.file.sync_data()?;
        self.length = self.length_now()?;
        if self.length != begin.saturating_add(count as u64) {
            // Another program may have written to the same line.
            self.is_shared = true;
            return Err(Error::from(ErrorKind::InvalidData));
        }
        Ok(count)
    }

    fn flush(&mut self) -> io::Result<()> {
        self.file.sync_data()
    }
}

/// Whether both paths name the same regular file.
pub fn is_one_file<F: Files>(files: &F, path: &str, other: &str) -> bool {
    match (fs::metadata(files, path), fs::metadata(files, other)) {
        (Ok(file), Ok(other)) => file.is_file() && is_same(&file, &other),
        _ => false,
    }
}

/// Whether a newly opened file is empty or begins with `{`. This refuses a byte order mark or white space before the
/// brace, because readers of records would not accept such a line.
fn may_hold_records<F: Read>(file: &mut F) -> io::Result<bool>
    ensures { IfOk result (λ may. IfSome (F.remaining file.old) (λ text. may ≡ may_hold_records text)) }
{
    let mut first = [0u8; 1];
    let count = file.read(&mut first)?;
    Ok(count == 0 || first[0] == b'{')
}

/// The number of bytes up to and including the last line feed.
fn line_end(bytes: &[u8]) -> Option<usize>
    ensures { EndsLine bytes.now result }
{
    match bytes.iter().rposition(|byte| *byte == b'\n') {
        Some(at) => Some(at + 1),
        None => None,
    }
}

/// The number of bytes of a file up to and including its last line feed.
fn whole_lines<F: Read + Seek>(file: &mut F, length: u64) -> io::Result<u64>
    ensures { IfOk result (λ whole. whole ≤ length) }
{
    let mut piece = [0u8; PIECE];
    let mut end = length;
    while end > 0 {
        let begin = end.saturating_sub(PIECE as u64);
        let bytes = &mut piece[..(end - begin) as usize];
        file.seek(SeekFrom::Start(begin))?;
        file.read_exact(bytes)?;
        if let Some(count) = line_end(bytes) {
            return Ok(begin + count as u64);
        }
        end = begin;
    }
    Ok(0)
}

/// Creates a file next to the one at this path, with the first free name `FILE.torn.N`.
fn new_beside<F: Files>(files: &F, alloc: Global, path: &str) -> io::Result<(String, F::File)> {
    for number in 1..=MOST_TORN {
        let name = format!(in alloc; "{path}.torn.{number}")?;
        match File::create_new(files, name.as_str()) {
            Ok(file) => return Ok((name, file)),
            Err(error) if error.kind() == ErrorKind::AlreadyExists => {}
            Err(error) => return Err(error),
        }
    }
    Err(Error::from(ErrorKind::AlreadyExists))
}

/// Moves the bytes of a file after the first `whole` ones to another file. The copy is on the disk before this cuts the
/// file.
fn move_rest<F: Read + Write + Seek + OpenFile>(
    file: &mut F,
    torn: &mut F,
    whole: u64,
) -> io::Result<()> {
    file.seek(SeekFrom::Start(whole))?;
    io::copy(file, torn)?;
    torn.sync_all()?;
    file.set_len(whole)
}

/// The number of bytes of a file before the line with this number, counted from 1.
fn line_start<F: Read + Seek>(file: &mut F, number: u64) -> io::Result<u64> {
    let mut piece = [0u8; PIECE];
    let mut left = number.saturating_sub(1);
    let mut start = 0u64;
    file.seek(SeekFrom::Start(0))?;
    for _ in 0..u64::MAX {
        if left == 0 {
            return Ok(start);
        }
        let count = file.read(&mut piece)?;
        if count == 0 {
            break;
        }
        for byte in &piece[..count] {
            if left > 0 {
                start = start.saturating_add(1);
                if *byte == b'\n' {
                    left -= 1;
                }
            }
        }
    }
    Err(Error::from(ErrorKind::UnexpectedEof))
}

/// Moves the bytes of a file after the first `whole` ones to a new file next to it. Returns the name of the new file.
/// If the copy fails, removes the new file.
fn move_beside<F: Files>(
    files: &F,
    alloc: Global,
    path: &str,
    file: &mut F::File,
    whole: u64,
) -> io::Result<String> {
    let (name, mut torn) = new_beside(files, alloc, path)?;
    if let Err(error) = move_rest(file, &mut torn, whole) {
        let _ = fs::remove_file(files, name.as_str());
        return Err(error);
    }
    file.sync_all()?;
    Ok(name)
}

impl<'a, R: Files> RecordsFile<'a, R, <R as Files>::File> {
    /// Cuts off the incomplete end of the file, if there is one, and moves it to a new file. Returns the name of the
    /// new file. The end begins with the line number `first`, counted from 1. If `first` is `None`, the end is a last
    /// line without a line feed.
    pub fn mend(
        &mut self,
        alloc: Global,
        first: Option<u64>,
    ) -> Result<Option<String>, RecordsFault> {
        let found = match first {
            Some(number) => line_start(&mut self.file, number),
            None => whole_lines(&mut self.file, self.length),
        };
        let whole = match found {
            Ok(whole) if whole == self.length => return Ok(None),
            Ok(whole) => whole,
            Err(error) => return Err(fault_of(error, RecordsFault::Unmended)),
        };
        match move_beside(self.files, alloc, self.path, &mut self.file, whole) {
            Ok(name) => {
                self.length = whole;
                Ok(Some(name))
            }
            Err(error) => Err(fault_of(error, RecordsFault::Unmended)),
        }
    }
}

fn fault_of(error: Error, other: RecordsFault) -> RecordsFault {
    match error.kind() {
        ErrorKind::OutOfMemory => RecordsFault::Memory,
        _ => other,
    }
}

/// Whether the path names a directory, a pipe or a device. The program does not open these, because opening a pipe may block.
fn is_special<F: Files>(files: &F, path: &str) -> bool {
    match fs::metadata(files, path) {
        Ok(found) => !found.is_file(),
        Err(_) => false,
    }
}

/// Opens the file at this path for appending, and creates the file if it does not exist. The file stays locked until it
/// is closed. Refuses a file that does not begin as a record does, and leaves it unchanged.
pub fn open_records<'a, R: LockedFiles>(
    files: &'a R,
    path: &'a str,
    limit: Option<u64>,
) -> Result<RecordsFile<'a, R, <R as Files>::File>, RecordsFault> {
    if is_special(files, path) {
        return Err(RecordsFault::NotRegular);
    }
    let mut options = OpenOptions::new();
    options.read(true).append(true).create(true);
    let file = match options.open(files, path) {
        Ok(file) => file,
        Err(error) => return Err(fault_of(error, RecordsFault::Unopened)),
    };
    match files.lock(&file) {
        Ok(true) => {}
        Ok(false) => return Err(RecordsFault::InUse),
        Err(error) => return Err(fault_of(error, RecordsFault::Unopened)),
    }
    let opened = match file.metadata() {
        Ok(found) if found.is_file() => found,
        _ => return Err(RecordsFault::NotRegular),
    };
    let length = opened.len();
    let mut records = RecordsFile {
        files,
        path,
        file,
        opened,
        limit,
        length,
        is_shared: false,
    };
    if records.length_now().is_err() {
        return Err(RecordsFault::Unopened);
    }
    match may_hold_records(&mut records.file) {
        Ok(true) => Ok(records),
        Ok(false) => Err(RecordsFault::NoRecords),
        Err(error) => Err(fault_of(error, RecordsFault::Unread)),
    }
}
