//! Standard streams that may be non-blocking, or files with a size limit.

use crate::limits::is_full;
use std::io::{Error, ErrorKind, Read, Result, Write};
use std::rt::Files;
use std::sync::Wait;
use std::time::{Clock, Duration};
use std::{fs, thread};

/// The paths of the standard streams' files on Linux.
pub const INPUT: &str = "/proc/self/fd/0";

pub const OUTPUT: &str = "/proc/self/fd/1";

pub const ERRORS: &str = "/proc/self/fd/2";

/// How many milliseconds to pause before a non-blocking stream is tried again.
const REST: u64 = 5;

/// A standard stream. While the stream would block, reads and writes pause and try again, as often as needed, because
/// the other end may take any length of time.
#[derive(Drop)]
pub struct Standard<'a, R, S> {
    rt: &'a R,
    stream: S,
    /// The path of the stream's file on Linux.
    place: &'static str,
    /// The size limit of the stream's file in bytes.
    limit: Option<u64>,
}

impl<'a, R, S> Standard<'a, R, S> {
    pub fn new(
        rt: &'a R,
        stream: S,
        place: &'static str,
        limit: Option<u64>,
    ) -> Standard<'a, R, S> {
        Standard {
            rt,
            stream,
            place,
            limit,
        }
    }
}

impl<R: Clock + Wait, S: Read> Read for Standard<'_, R, S> {
    ghost remaining = { λ standard. S.remaining standard.stream };

    #[tactic(auto, using(crate::proofs::Waited::kept_at_first, crate::proofs::Waited::kept_again, crate::proofs::Waited::reads_in_the_end))]
    fn read(&mut self, bytes: &mut [u8]) -> Result<usize> {
        for _ in self.rt.forever() {
            match self.stream.read(bytes) {
                Err(error) if error.kind() == ErrorKind::WouldBlock => {
                    thread::sleep(self.rt, Duration::from_millis(REST));
                }
                read => return read,
            }
        }
        Err(Error::from(ErrorKind::WouldBlock))
    }
}

impl<R: Clock + Files + Wait, S: Write> Write for Standard<'_, R, S> {
    ghost contents = { λ standard. S.contents standard.stream };

    #[tactic(auto, using(crate::proofs::Waited::kept_at_first, crate::proofs::Waited::kept_again, crate::proofs::Waited::writes_in_the_end))]
    fn write(&mut self, bytes: &[u8]) -> Result<usize> {
        if let Some(limit) = self.limit {
            if is_full(limit, fs::metadata(self.rt, self.place)) {
                return Err(Error::from(ErrorKind::FileTooLarge));
            }
        }
        for _ in self.rt.forever() {
            match self.stream.write(bytes) {
                Err(error) if error.kind() == ErrorKind::WouldBlock => {
                    thread::sleep(self.rt, Duration::from_millis(REST));
                }
                written => return written,
            }
        }
        Err(Error::from(ErrorKind::WouldBlock))
    }

    fn flush(&mut self) -> Result<()> {
        self.stream.flush()
    }
}
