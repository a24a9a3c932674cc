//! Listens for connections.

use std::alloc::{AllocError, Global};
use std::io;
use std::io::ErrorKind;
use std::net::{TcpListener, TcpStream};
use std::os::fd::OwnedFd;
use std::os::unix::net::UnixListener;

/// A runtime that opens listening sockets.
pub trait Listens {
    /// Listens on `HOST:PORT`, or creates a socket file for `unix:PATH`, where no file may exist.
    fn listen(&self, address: &str) -> io::Result<Listener>;
}

impl Listens for HostRuntime {
    fn listen(&self, address: &str) -> io::Result<Listener> {
        match address.strip_prefix("unix:") {
            // For an empty path, the system would choose a name that no client knows.
            Some("") => Err(io::Error::from(ErrorKind::InvalidInput)),
            Some(path) => Ok(Listener::Unix(UnixListener::bind(self, path)?)),
            None => Ok(Listener::Tcp(TcpListener::bind(self, address)?)),
        }
    }
}

/// A listening socket. Several threads may wait for connections at once.
#[derive(Drop)]
pub enum Listener {
    Tcp(TcpListener),
    Unix(UnixListener),
}

impl Listener {
    /// The row with the address that clients can connect to. If the requested port was 0, the row contains the port that the system chose.
    pub fn row(&self, alloc: Global, address: &str) -> Result<String, AllocError> {
        if let Listener::Tcp(listener) = self {
            if let Ok(chosen) = listener.local_addr() {
                return format!(in alloc; "listening on {chosen}\n");
            }
        }
        format!(in alloc; "listening on {address}\n")
    }

    /// Waits for the next connection. After the socket has been shut down, this fails at once.
    pub(crate) fn accept(&self) -> io::Result<TcpStream> {
        match self {
            Listener::Tcp(listener) => {
                let (stream, _) = listener.accept()?;
                // Without this option, the system delays small replies.
                let _ = stream.set_nodelay(true);
                Ok(stream)
            }
            Listener::Unix(listener) => {
                let (stream, _) = listener.accept()?;
                Ok(TcpStream::from(OwnedFd::from(stream)))
            }
        }
    }

    /// A second handle of the socket, for shutting the socket down. The standard library can shut down only streams,
    /// but the system treats a listening socket in the same way.
    pub(crate) fn handle(&self) -> io::Result<TcpStream> {
        let socket = match self {
            Listener::Tcp(listener) => OwnedFd::from(listener.try_clone()?),
            Listener::Unix(listener) => OwnedFd::from(listener.try_clone()?),
        };
        Ok(TcpStream::from(socket))
    }
}
