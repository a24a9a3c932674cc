//! Reports that wait to be written, so that no match waits for their reader.
ghost use Rattle.std.specs.Prelude.{◌↔◌, ◌⊎◌, false, IfOk, IsTrue, OnErr, string_bytes};
ghost use Rattle.match_log.specs.WaitingLines.{IsLeftOut, IsNothing, Waits};

use crate::events::{Event, Json};
use crate::shown_text::reported_byte;
use crate::status::{Progress, StatusStream};
use game_core::Counted;
use std::alloc::{AllocError, Global};
use std::fmt::Write as _;
use std::io::{ErrorKind, Write};
use std::sync::{Condvar, CondvarTimeouts, Mutex, Wait};
use std::time::{Clock, Duration};
use std::{fmt, io, mem};
use whole_streams::{Pieces, write_all};

/// The largest number of bytes of the log that may wait, including a new text line: 8 MiB. If nothing waits, any text
/// line fits: a message has at most 131,072 bytes of moves, an answer has at most 65,536 bytes, and each byte becomes
/// at most six.
const MAX_WAITING: usize = 8_388_608;

/// The longest wait for reports, in seconds. After it, another wait begins.
const LONGEST_WAIT_SECONDS: u64 = 3_600;

/// The reports that wait to be written.
#[derive(Drop)]
struct Waiting {
    /// Text lines for standard error.
    reports: Vec<u8>,
    /// Text lines of the log.
    log: Vec<u8>,
    /// The number of text lines that are missing from the log after the waiting ones.
    left_out: u64,
    /// Whether the matches have progressed since the status line was last written.
    has_moved: bool,
    is_closed: bool,
}

impl Waiting {
    fn nothing(alloc: Global, is_closed: bool) -> Waiting
        ensures { IsNothing result is_closed }
    {
        Waiting {
            reports: Vec::new(alloc),
            log: Vec::new(alloc),
            left_out: 0,
            has_moved: false,
            is_closed,
        }
    }

    /// Whether nothing waits, but more may come.
    fn is_idle(&self) -> bool
        ensures { IsTrue result ↔ IsNothing self.now false }
    {
        let is_empty = self.reports.is_empty() && self.log.is_empty() && self.left_out == 0;
        is_empty && !self.has_moved && !self.is_closed
    }

    /// Appends a text line to the log. If too much already waits, or memory ran out, counts the text line as left out
    /// instead.
    fn log(&mut self, line: Result<String, AllocError>)
        ensures line { IfOk line (λ line. Waits self.old self.new (string_bytes line) ⊎ IsLeftOut self.old self.new) }
        ensures none { OnErr line (IsLeftOut self.old self.new) }
    {
        if let Ok(line) = line {
            let size = self.log.len().saturating_add(line.len());
            if size <= MAX_WAITING && self.log.extend_from_slice(line.as_bytes()).is_ok() {
                return;
            }
        }
        self.left_out = self.left_out.saturating_add(1);
    }
}

/// The number of complete text lines in a text.
fn lines_in(text: &[u8]) -> u64 {
    let mut count = 0u64;
    for byte in text {
        if *byte == b'\n' {
            count = count.saturating_add(1);
        }
    }
    count
}

/// Writes complete text lines until the stream fails. Returns how many of them were not written completely.
fn unwritten<W: Write>(stream: &mut W, lines: &[u8]) -> u64 {
    let mut rest = lines;
    while !rest.is_empty() {
        match stream.write(rest) {
            Ok(count) if count > 0 => rest = &rest[count..],
            _ => return lines_in(rest),
        }
    }
    0
}

/// What is missing from the log. After a failed write, nothing more is written to the log.
#[derive(Drop)]
struct LogState {
    /// The number of objects that were left out and that the log has not yet reported.
    left_out: u64,
    /// The number of text lines that were not written.
    missing: u64,
}

impl LogState {
    /// Writes the waiting text lines to the log, and then how many were left out.
    fn write<W: Write>(&mut self, alloc: Global, waiting: &mut Waiting, stream: &mut W) {
        self.left_out = self.left_out.saturating_add(waiting.left_out);
        if self.missing > 0 {
            self.missing = self.missing.saturating_add(lines_in(&waiting.log));
            return;
        }
        let mut reported = 0;
        if self.left_out > 0 {
            if let Ok(line) = Event::LeftOut(self.left_out).to_string(alloc) {
                if waiting.log.extend_from_slice(line.as_bytes()).is_ok() {
                    reported = mem::take(&mut self.left_out);
                }
            }
        }
        self.missing = unwritten(stream, &waiting.log);
        if self.missing > 0 && reported > 0 {
            // The last text line only counts the objects that were left out. These objects are missing instead of the line.
            self.missing = (self.missing - 1).saturating_add(reported);
        }
    }

    /// Reports what is missing from the log. Ignores errors of the stream.
    fn end<E: Write>(&self, errors: &mut E) {
        let missing = self.missing.saturating_add(self.left_out);
        if missing > 0 {
            let mut pieces = Pieces { stream: errors };
            let _ = writeln!(
                pieces,
                "ggp_manager: the log could not be written: {missing} lines are missing"
            );
        }
    }
}

/// The reports of running matches. They wait until a separate thread writes them. So a reader that stops reading cannot
/// stop a match.
#[derive(Drop)]
pub struct Notices {
    alloc: Global,
    /// Whether there is a log.
    pub(crate) is_logged: bool,
    waiting: Mutex<Waiting>,
    changed: Condvar,
}

impl Notices {
    /// Creates an empty list of reports.
    pub fn new(alloc: Global, is_logged: bool) -> Notices {
        Notices {
            alloc,
            is_logged,
            waiting: Mutex::new(Waiting::nothing(alloc, false)),
            changed: Condvar::new(),
        }
    }

    /// Adds a text line to the log. If there is no memory for the text line, or too much already waits, counts it as
    /// left out instead.
    pub fn log<R: Wait>(&self, rt: &R, line: Result<String, AllocError>) {
        self.waiting.lock(rt).log(line);
        self.changed.notify_one();
    }

    /// Records in the log, if there is one, that the match with this id has no record.
    pub fn log_missing<R: Wait, F: fmt::Display>(&self, rt: &R, id: &str, why: &F) {
        if self.is_logged {
            let line = match why.to_string(self.alloc) {
                Ok(reason) => {
                    let reason = Json::Text(Some(reason.as_bytes()));
                    Event::NoRecord(Json::Text(Some(id.as_bytes())), reason).to_string(self.alloc)
                }
                Err(error) => Err(error),
            };
            self.log(rt, line);
        }
    }

    /// Adds a text line for standard error, without a limit. Returns whether there was memory for it.
    pub(crate) fn report<R: Wait>(&self, rt: &R, line: &[u8]) -> bool {
        let is_taken = self
            .waiting
            .lock(rt)
            .reports
            .extend_from_slice(line)
            .is_ok();
        self.changed.notify_one();
        is_taken
    }

    /// Reports that the matches have progressed, so that the status line is rewritten.
    pub fn move_on<R: Wait>(&self, rt: &R) {
        self.waiting.lock(rt).has_moved = true;
        self.changed.notify_one();
    }

    /// Ends the reports. The thread that writes them ends when it has written all of them.
    pub fn close<R: Wait>(&self, rt: &R) {
        self.waiting.lock(rt).is_closed = true;
        self.changed.notify_one();
    }

    /// Takes the reports. If there are none, waits for some: without a limit, or for `at_most` if that is given.
    fn take<H: Clock + Wait>(&self, rt: &H, at_most: Option<Duration>) -> Waiting {
        let at_most = at_most.unwrap_or(Duration::from_secs(LONGEST_WAIT_SECONDS));
        let mut waiting = self
            .changed
            .wait_timeout_while(
                rt,
                self.waiting.lock(rt),
                at_most,
                |waiting| waiting.is_idle(),
            )
            .0;
        let nothing = Waiting::nothing(self.alloc, waiting.is_closed);
        mem::replace(&mut *waiting, nothing)
    }

    /// Writes the reports and the log until they end. If the log has no separate stream, writes it to the stream of the
    /// reports. When the matches have progressed, rewrites the status line, once the old one has been visible for a
    /// moment.
    pub fn write_until_closed<H: Clock + Wait, E: Write, L: Write + Drop>(
        &self,
        rt: &H,
        progress: &Progress,
        stream: &Mutex<StatusStream<E>>,
        log: Option<L>,
    ) {
        let mut log = log;
        let mut state = LogState {
            left_out: 0,
            missing: 0,
        };
        // How long the status line must still wait, if it is out of date.
        let mut behind = None;
        for _ in rt.forever() {
            let mut waiting = self.take(rt, behind);
            if let Some(log) = &mut log {
                state.write(self.alloc, &mut waiting, log);
            }
            let mut stream = stream.lock(rt);
            let _ = write_all(&mut Counted::new(&mut *stream), &waiting.reports);
            if log.is_none() {
                state.write(self.alloc, &mut waiting, &mut *stream);
            }
            if waiting.is_closed {
                state.end(&mut *stream);
                return;
            }
            if waiting.has_moved || behind.is_some() {
                behind = stream.show(rt, progress);
            }
        }
    }
}

/// A stream of reports. Adds its text lines to the notices, without a limit. An id may contain any bytes, so `?`
/// replaces bytes outside 0x20 to 0x7E.
#[derive(Drop)]
pub struct ReportStream<'a, R> {
    rt: &'a R,
    notices: &'a Notices,
    /// The unfinished text line.
    line: Vec<u8>,
}

impl<'a, R: Wait> ReportStream<'a, R> {
    pub fn new(rt: &'a R, notices: &'a Notices) -> ReportStream<'a, R> {
        ReportStream {
            rt,
            notices,
            line: Vec::new(notices.alloc),
        }
    }
}

impl<R: Wait> Write for ReportStream<'_, R> {
    fn write(&mut self, bytes: &[u8]) -> io::Result<usize> {
        for byte in bytes {
            if self.line.push(reported_byte(*byte)).is_err() {
                // Otherwise the next report would be appended to this one.
                self.line.clear();
                return Err(io::Error::from(ErrorKind::OutOfMemory));
            }
        }
        if !self.line.ends_with(b"\n") {
            return Ok(bytes.len());
        }
        let is_taken = self.notices.report(self.rt, &self.line);
        self.line.clear();
        if is_taken {
            Ok(bytes.len())
        } else {
            Err(io::Error::from(ErrorKind::OutOfMemory))
        }
    }

    fn flush(&mut self) -> io::Result<()> {
        Ok(())
    }
}
