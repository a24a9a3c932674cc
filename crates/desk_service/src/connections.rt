//! The open connections of a service, and how they end.

use crate::listener::Listener;
use std::alloc::Global;
use std::net::{Shutdown, TcpStream};
use std::sync::{Condvar, Mutex, Wait};
use std::time::{Clock, Duration};
use std::{io, thread};

/// How many seconds open connections may last after the service has ended.
const GRACE: u64 = 5;

/// How many milliseconds to pause after the system could not accept a connection.
const REST: u64 = 50;

/// The open connections, and whether the service has ended.
#[derive(Drop)]
struct Open {
    /// For each line with a connection, a second handle of the connection.
    streams: Vec<Option<TcpStream>>,
    /// The number of connections.
    count: u32,
    has_ended: bool,
}

impl Open {
    /// Stores the connection of the line with this index, or `None` when the connection has ended.
    fn set(&mut self, place: usize, stream: Option<TcpStream>) {
        if let Some(entry) = self.streams.get_mut(place) {
            *entry = stream;
        }
    }

    /// Shuts down one or both sides of all open connections.
    fn shut(&self, how: Shutdown) {
        for stream in &self.streams {
            if let Some(stream) = stream {
                let _ = stream.shutdown(how);
            }
        }
    }
}

/// The listener and the open connections of a service.
#[derive(Drop)]
pub struct Connections<'a> {
    pub listener: &'a Listener,
    /// Another handle of the listening socket.
    handle: TcpStream,
    open: Mutex<Open>,
    left: Condvar,
}

impl<'a> Connections<'a> {
    /// Starts without connections. At most `lines` connections are open at once.
    pub fn new(alloc: Global, listener: &'a Listener, lines: u32) -> io::Result<Connections<'a>> {
        let handle = listener.handle()?;
        let mut streams = Vec::new(alloc);
        for _ in 0..lines {
            streams.push(None)?;
        }
        let open = Mutex::new(Open {
            streams,
            count: 0,
            has_ended: false,
        });
        Ok(Connections {
            listener,
            handle,
            open,
            left: Condvar::new(),
        })
    }

    /// Accepts a connection, and makes a second handle of it.
    fn accept(&self) -> io::Result<(TcpStream, TcpStream)> {
        let stream = self.listener.accept()?;
        let second = stream.try_clone()?;
        Ok((stream, second))
    }

    /// Waits for a connection for the line with this index. Returns `None` after the end of the service.
    pub(crate) fn next<R: Clock + Wait>(&self, rt: &R, place: usize) -> Option<TcpStream> {
        for _ in rt.forever() {
            let accepted = self.accept();
            let mut open = self.open.lock(rt);
            if open.has_ended {
                return None;
            }
            if let Ok((stream, second)) = accepted {
                open.set(place, Some(second));
                open.count = open.count.saturating_add(1);
                return Some(stream);
            }
            drop(open);
            // The system is out of descriptors or memory, or the client has already disconnected.
            thread::sleep(rt, Duration::from_millis(REST));
        }
        unreachable!()
    }

    /// Ends the connection of the line with this index.
    pub(crate) fn leave<R: Wait>(&self, rt: &R, place: usize) {
        let mut open = self.open.lock(rt);
        open.set(place, None);
        open.count = open.count.saturating_sub(1);
        self.left.notify_all();
    }

    /// Ends the service: accepts no more connections, and reads no more from the open ones. Waits up to `GRACE` seconds
    /// until all connections have ended, and then cuts the remaining ones. Returns whether it cut a connection.
    pub(crate) fn end<R: Clock + Wait>(&self, rt: &R) -> bool {
        let mut open = self.open.lock(rt);
        open.has_ended = true;
        open.shut(Shutdown::Read);
        let _ = self.handle.shutdown(Shutdown::Both);
        let (open, _) = self.left.wait_timeout_while(
            rt,
            open,
            Duration::from_secs(GRACE),
            |open| open.count > 0,
        );
        let is_cut = open.count > 0;
        open.shut(Shutdown::Both);
        is_cut
    }
}
