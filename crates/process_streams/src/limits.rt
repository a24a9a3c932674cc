//! The limits that the operating system sets for the process.

use game_core::Counted;
use std::alloc::Global;
use std::fs::Metadata;
use std::rt::Files;
use std::{fs, io, str};
use whole_streams::read_to_end;

/// The file that lists the limits of the process on Linux.
const LIMITS: &str = "/proc/self/limits";

/// The largest number of bytes to read from this file.
const MAX_LIMITS: usize = 65_536;

/// The name of the limit on open file descriptors in `/proc/self/limits`.
pub const DESCRIPTORS: &str = "Max open files";

/// The name of the limit on a file's size in bytes in `/proc/self/limits`.
pub const FILE_SIZE: &str = "Max file size";

/// The soft limit with this name in the text of `/proc/self/limits`, or `None` if the text does not contain the name
/// or there is no limit.
pub fn limit_in(limits: &str, name: &str) -> Option<u64> {
    for line in limits.lines() {
        if let Some(rest) = line.strip_prefix(name) {
            return rest.split_ascii_whitespace().next()?.parse::<u64>().ok();
        }
    }
    None
}

/// The soft limit with this name, or `None` if there is no limit or it cannot be read.
pub fn limit_of<F: Files>(files: &F, alloc: Global, name: &str) -> Option<u64> {
    let Ok(file) = fs::open(files, LIMITS) else {
        return None;
    };
    match read_to_end(alloc, &mut Counted::new(file), MAX_LIMITS) {
        Ok(limits) => limit_in(str::from_utf8(&limits).ok()?, name),
        Err(_) => None,
    }
}

/// Whether a file has reached its size limit. If it has, writing one more byte would make a signal end the process.
pub(crate) fn is_full(limit: u64, found: io::Result<Metadata>) -> bool {
    match found {
        Ok(found) => found.is_file() && found.len() >= limit,
        Err(_) => false,
    }
}
