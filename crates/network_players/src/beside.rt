//! A network that looks up hosts while the players' messages continue.

use crate::lookup::{HostQuery, Resolves};
use crate::pending_lookups::PendingLookups;
use crate::routes::Routes;
use match_plans::Shortage;
use std::alloc::AllocError;
use std::net::{Net, SocketAddr, UdpSocket};
use std::os::fd::OwnedFd;
use std::os::unix::net as unix;
use std::os::unix::net::UnixStream;
use std::sync::{Arc, Mutex, Wait};
use std::time::{Clock, Duration};
use std::{io, thread};

/// How often a message tries to get the list of lookups, with a pause of a millisecond after each try. Another thread
/// needs only microseconds for this.
const MAX_TRIES: u32 = 1_000;

/// The network and the clock of a runtime, and a function that starts a lookup and does not wait for its end.
///
/// The function must be made where the type of the runtime is known, as in `main`: a method that is generic over the runtime cannot show
/// that a thread may use it.
#[derive(Drop)]
pub struct Beside<'a, H> {
    pub rt: &'a H,
    pub host: HostRuntime,
    pub begin: fn(HostRuntime, Arc<HostQuery>) -> Result<(), AllocError>,
    pub pending: Mutex<PendingLookups>,
    ghost callable: { IsAlwaysCallable begin },
}

impl<H: Wait> Wait for Beside<'_, H> {}

impl<H: Clock> Clock for Beside<'_, H> {
    fn monotonic(&self) -> io::Result<Duration> {
        self.rt.monotonic()
    }

    fn since_1970(&self) -> io::Result<Duration> {
        self.rt.since_1970()
    }

    fn sleep(&self, duration: Duration) {
        self.rt.sleep(duration);
    }
}

impl<H: Net> Net for Beside<'_, H> {
    type Stream = H::Stream;

    type Listener = H::Listener;

    fn bind(&self, addr: SocketAddr) -> io::Result<H::Listener> {
        self.rt.bind(addr)
    }

    fn connect(&self, addr: SocketAddr) -> io::Result<H::Stream> {
        self.rt.connect(addr)
    }

    fn connect_timeout(&self, addr: SocketAddr, timeout: Duration) -> io::Result<H::Stream> {
        self.rt.connect_timeout(addr, timeout)
    }

    fn bind_udp(&self, addr: SocketAddr) -> io::Result<UdpSocket> {
        self.rt.bind_udp(addr)
    }

    fn lookup_host(&self, host: &str, port: u16, found: &mut [SocketAddr]) -> io::Result<usize> {
        self.rt.lookup_host(host, port, found)
    }

    fn connect_unix(&self, addr: &unix::SocketAddr) -> io::Result<UnixStream> {
        self.rt.connect_unix(addr)
    }

    fn unix_pair(&self) -> io::Result<(UnixStream, UnixStream)> {
        self.rt.unix_pair()
    }

    fn unix_socket(&self) -> io::Result<OwnedFd> {
        self.rt.unix_socket()
    }
}

impl<H: Routes> Routes for Beside<'_, H> {
    fn source(&self, address: &SocketAddr) -> io::Result<SocketAddr> {
        self.rt.source(address)
    }

    fn probe(&self, address: &SocketAddr) -> io::Result<()> {
        self.rt.probe(address)
    }
}

impl<H> Beside<'_, H> {
    /// Starts the lookup. If there is no memory or thread for it, the lookup ends with this error.
    fn start(&self, query: &Arc<HostQuery>) {
        let started = match Arc::try_clone(query) {
            Ok(shared) => (self.begin)(self.host, shared),
            Err(_) => Err(AllocError),
        };
        if started.is_err() {
            query.end(Err(Shortage::Memory));
        }
    }
}

impl<H: Routes + Clock> Resolves for Beside<'_, H> {
    // A message does not wait for another thread, because such a wait may never end.
    fn begin(&self, query: Arc<HostQuery>) -> Result<Arc<HostQuery>, Shortage> {
        for _ in 0..MAX_TRIES {
            let joined = match self.pending.try_lock() {
                Some(mut pending) => pending.join(&query)?,
                None => {
                    thread::sleep(self, Duration::from_millis(1));
                    continue;
                }
            };
            return match joined {
                Some(other) => Ok(other),
                None => {
                    self.start(&query);
                    Ok(query)
                }
            };
        }
        Err(Shortage::Processor)
    }

    // The thread waits for the lookup, and the message waits for the thread.
    fn longest_begin(&self, _: Duration) -> Duration {
        Duration::ZERO
    }
}
