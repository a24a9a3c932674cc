//! Placeholders for closed standard streams.

use std::net::Net;
use std::os::fd::{BorrowedFd, IntoRawFd, OwnedFd};
use std::{fs, io};

/// Linux's error number `EBADF`: the descriptor is not open.
const NOT_OPEN: i32 = 9;

/// If the stream is closed, occupies its descriptor number with a socket without a peer or, if the system refuses that,
/// with the root directory. Reading and writing fail for both, as for a closed stream. The system assigns the lowest
/// free number, so call this for lower numbers first.
fn held(rt: &HostRuntime, stream: BorrowedFd<'_>) -> io::Result<()> {
    // If copying the descriptor fails for any other reason, the stream is open.
    let is_closed = match stream.try_clone_to_owned() {
        Ok(_) => false,
        Err(error) => error.raw_os_error() == Some(NOT_OPEN),
    };
    if is_closed {
        let placeholder = match rt.unix_socket() {
            Ok(socket) => socket,
            Err(_) => OwnedFd::from(fs::open(rt, "/")?),
        };
        // The program never closes the descriptor.
        let _number = placeholder.into_raw_fd();
    }
    Ok(())
}

/// Occupies the descriptor numbers of closed standard streams until the program ends. Otherwise a connection to a
/// player would get one of these numbers, and the player would receive the text that is written to the stream. Open
/// streams cost no descriptor. Returns an error if a stream is closed and no placeholder can be opened.
pub fn hold_closed(
    rt: &HostRuntime,
    input: BorrowedFd<'_>,
    output: BorrowedFd<'_>,
    errors: BorrowedFd<'_>,
) -> io::Result<()> {
    held(rt, input)?;
    held(rt, output)?;
    held(rt, errors)
}
