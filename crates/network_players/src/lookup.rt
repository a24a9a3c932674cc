//! The addresses of a player's host. A thread looks them up while the player waits, for as long as the message has time.
ghost use Rattle.std.specs.Prelude.{◌≡◌, ◌↔◌, ◌<◌, IfErr, IfOk, IfSome, IsSome, IsSomeAnd, IsTrue, None, OnErr, OnOk, Some, length, string_bytes};
ghost use Rattle.std.specs.Option.{ForSome};
ghost use Rattle.http_exchange.specs.declared.received.Received.{Received};
ghost use Rattle.network_players.specs.declared.contacting.ContactFault.TheVariants.{Late};

use crate::contacting::{ContactFault, fault_at_refusal};
use crate::deadline::{Deadline, LATE, doubled};
use crate::host_addresses::{addresses, is_address};
use crate::routes::{Routes, lack_of_home, lack_of_network, lack_since};
use desk_calls::MAX_CLOCK;
use match_plans::{PlayerAddress, Shortage};
use std::alloc::{AllocError, Global};
use std::net::{Net, SocketAddr, TcpListener, TcpStream};
use std::sync::{Arc, OnceLock};
use std::thread;
use std::thread::Threads;
use std::time::{Clock, Duration, Instant};

/// The first pause between two checks whether a lookup has ended, in milliseconds. Each further pause is twice as long.
const FIRST_PAUSE_MILLIS: u64 = 1;

/// The longest such pause, in milliseconds.
const LONGEST_PAUSE_MILLIS: u64 = 50;

/// How often a message checks whether a lookup has ended. With their pauses these checks take longer than any clock
/// allows.
const MAX_CHECKS: u32 = 2_000_000;

const _: () = prove!((MAX_CHECKS as u64 - 10) * LONGEST_PAUSE_MILLIS > MAX_CLOCK as u64 * 1_000);

/// After this many seconds most resolvers have given up. A further message then looks up its host anew.
const LONG_SECONDS: u64 = 30;

/// The result of a lookup: the addresses, none if the host has no address, or what the referee lacked.
pub type Found = Result<Vec<SocketAddr>, Shortage>;

/// A lookup of a host's addresses. The thread that makes the lookup shares this value with the waiting player.
#[derive(Drop)]
pub struct HostQuery {
    alloc: Global,
    host: String,
    port: u16,
    begun: Instant,
    found: OnceLock<Found>,
}

impl HostQuery {
    /// Makes the lookup, which may take a long time, and stores the result.
    pub fn make<N: Routes>(&self, net: &N) {
        self.end(addresses(net, self.alloc, self.host.as_str(), self.port));
    }

    /// Stores the result of the lookup. Only the first result counts.
    pub(crate) fn end(&self, found: Found) {
        let _ = self.found.try_set(found);
    }

    /// Whether this is a lookup of the same host. The port is not looked up.
    pub(crate) fn is_of(&self, host: &HostQuery) -> bool
        ensures { IsTrue result ↔ (string_bytes self.now.host ≡ string_bytes host.now.host) }
    {
        self.host == host.host
    }

    /// Whether this lookup began so long before another one that it may never end.
    pub(crate) fn is_long_before(&self, other: &HostQuery) -> bool {
        self.is_old(other.begun)
    }

    fn is_old(&self, now: Instant) -> bool {
        now - self.begun > Duration::from_secs(LONG_SECONDS)
    }

    /// The result of the lookup, or `None` if it has not ended yet.
    pub fn found(&self) -> Option<&Found> {
        self.found.get()
    }
}

/// A network that can look up host names.
pub trait Resolves: Routes {
    /// Starts the lookup, and returns it; or returns a lookup of the same host that has not ended. The error is what the
    /// referee lacks for another lookup.
    fn begin(&self, query: Arc<HostQuery>) -> Result<Arc<HostQuery>, Shortage>;

    /// How long starting may take if the message has this much time left.
    fn longest_begin(&self, left: Duration) -> Duration;

    /// The result of the lookup, or `None` if it has not ended yet.
    fn found<'q>(&self, query: &'q HostQuery) -> Option<&'q Found> {
        query.found()
    }
}

/// Makes the lookup in a separate thread. The caller does not wait for this thread. The error means that no thread can be
/// created. The types of the sockets are named, because otherwise nothing shows that the thread may use the network.
pub fn make_beside<R>(rt: R, query: Arc<HostQuery>) -> Result<(), AllocError>
where
    R: Net<Listener = TcpListener, Stream = TcpStream> + Threads + Copy + Send + 'static,
{
    thread::spawn(&rt, move || query.make(&rt))?;
    Ok(())
}

/// A runtime without such a function makes the lookup while the message waits.
impl<R: Net + Copy + Send + 'static> Resolves for R {
    fn begin(&self, query: Arc<HostQuery>) -> Result<Arc<HostQuery>, Shortage> {
        query.make(self);
        Ok(query)
    }

    fn longest_begin(&self, left: Duration) -> Duration {
        left
    }
}

/// The addresses of a player's host, once they are looked up. A host without an address is looked up again.
#[derive(Drop)]
pub struct Lookup {
    found: Option<Vec<SocketAddr>>,
    /// Whether the first address is first because it has accepted a connection.
    pub(crate) has_preferred: bool,
    /// The address of this computer that it last used to reach the first address, if this is known.
    home: Option<SocketAddr>,
    /// The lookup that has not ended yet.
    query: Option<Arc<HostQuery>>,
    ghost some: { ForSome found (λ found. 0 < length found.items) },
}

/// A lookup that has not started, for the addresses of a player's host.
fn query_of(
    alloc: Global,
    player: &PlayerAddress<'_>,
    begun: Instant,
) -> Result<Arc<HostQuery>, AllocError> {
    let host = String::from_str(alloc, player.host)?;
    let query = HostQuery {
        alloc,
        host,
        port: player.port,
        begun,
        found: OnceLock::new(),
    };
    Ok(Arc::new(alloc, query)?)
}

/// Starts a lookup, or joins a lookup of the same host. If the host is an address, the lookup needs no resolver and is made at once. The
/// error is what the referee lacks for the lookup.
fn begun<N: Resolves>(
    net: &N,
    alloc: Global,
    player: &PlayerAddress<'_>,
    now: Instant,
) -> Result<Arc<HostQuery>, ContactFault> {
    let Ok(query) = query_of(alloc, player, now) else {
        return Err(ContactFault::Shortage(Shortage::Memory));
    };
    if is_address(player.host) {
        query.make(net);
        return Ok(query);
    }
    match net.begin(query) {
        Ok(begun) => Ok(begun),
        Err(shortage) => Err(ContactFault::Shortage(shortage)),
    }
}

/// The time requested for starting the lookup. An address needs no resolver: if its lookup takes time, the referee was not running.
fn longest_begin<N: Resolves>(net: &N, player: &PlayerAddress<'_>, left: Duration) -> Duration {
    if is_address(player.host) {
        Duration::ZERO
    } else {
        net.longest_begin(left)
    }
}

/// Copies the result of a lookup for a player at this port.
fn copied(alloc: Global, found: &Found, port: u16) -> Found
    ensures { IfOk result (λ copy. IfOk found.now (λ found. length copy.items ≡ length found.items)) }
{
    match found {
        Ok(found) => {
            let Ok(mut copy) = Vec::from_slice(alloc, found) else {
                return Err(Shortage::Memory);
            };
            for address in copy.iter_mut() {
                address.set_port(port);
            }
            Ok(copy)
        }
        Err(shortage) => Err(*shortage),
    }
}

/// Waits for the end of the lookup, for as long as the message has time. `asked` is the time that was requested for its start. The message
/// sleeps between two checks, because a wait for another thread may never end.
fn wait_for<N: Resolves + Clock>(
    net: &N,
    alloc: Global,
    player: &PlayerAddress<'_>,
    query: &HostQuery,
    asked: Duration,
    deadline: &mut Deadline,
) -> Result<Found, ContactFault> {
    let mut limit = Duration::from_millis(FIRST_PAUSE_MILLIS);
    let mut left = deadline.after(net, asked)?;
    for _ in 0..MAX_CHECKS {
        if let Some(found) = net.found(query) {
            return Ok(copied(alloc, found, player.port));
        }
        let pause = left.min(limit);
        thread::sleep(net, pause);
        left = deadline.after(net, pause)?;
        limit = doubled(limit, Duration::from_millis(LONGEST_PAUSE_MILLIS));
    }
    Err(LATE)
}

impl Lookup {
    /// Creates the state of a host that has not been looked up.
    pub const fn new() -> Lookup
        ensures { result.found ≡ None }
    {
        Lookup {
            found: None,
            has_preferred: false,
            home: None,
            query: None,
        }
    }

    /// Looks up the addresses of the player's host, for as long as the message has time. After a lookup has found some, later calls
    /// return the same addresses. A lookup that takes longer continues for the next message. If it takes too long while this computer has
    /// no network, the referee lacks a network.
    pub fn look_up<N: Resolves + Clock>(
        &mut self,
        net: &N,
        alloc: Global,
        player: &PlayerAddress<'_>,
        deadline: &mut Deadline,
    ) -> Result<(), ContactFault>
        ensures once { IfSome self.old.found (λ found. self.new.found ≡ Some found) }
        ensures found { OnOk result (IsSomeAnd self.new.found (λ found. 0 < length found.items)) }
        ensures without { OnErr result (self.new.found ≡ self.old.found) }
        ensures goes_on { IfErr result (λ fault. (received : Received) → fault ≡ Late received → IsSome self.old.query → IsSome self.new.query) }
    {
        if self.found.is_some() {
            return Ok(());
        }
        let left = deadline.after(net, Duration::ZERO)?;
        let asked = longest_begin(net, player, left);
        let lack = lack_of_network(net);
        let is_old = match &self.query {
            Some(query) => query.is_old(deadline.seen),
            None => false,
        };
        let query = match self.query.take() {
            Some(query) if !is_old => query,
            old => match begun(net, alloc, player, deadline.seen) {
                Ok(query) => query,
                Err(fault) => {
                    self.query = old;
                    return Err(fault);
                }
            },
        };
        let found = match wait_for(net, alloc, player, &query, asked, deadline) {
            Ok(found) => found,
            Err(fault) => {
                self.query = Some(query);
                return Err(fault_at_refusal(fault, lack_since(net, lack)));
            }
        };
        match found {
            Err(shortage) => Err(ContactFault::Shortage(shortage)),
            Ok(found) if found.is_empty() => Err(ContactFault::NoAddress),
            Ok(found) => {
                self.found = Some(found);
                Ok(())
            }
        }
    }

    /// Moves the address with this index to the front, because it has accepted a connection.
    pub fn prefer<N: Routes>(&mut self, net: &N, place: usize) {
        let Some(found) = &mut self.found else {
            return;
        };
        if place < found.len() {
            found.swap(0, place);
            self.has_preferred = true;
            self.home = net.source(&found[0]).ok();
        }
    }

    /// What this computer lacks if the address with this index has accepted a connection before, and this computer has lost its own
    /// address or its route for that connection.
    pub(crate) fn lack_of_home<N: Routes>(&self, net: &N, place: usize) -> Option<Shortage> {
        match (place, &self.home, self.addresses().first()) {
            (0, Some(home), Some(address)) => lack_of_home(net, home, address),
            _ => None,
        }
    }

    /// The addresses that were found; none before the lookup has ended.
    pub fn addresses(&self) -> &[SocketAddr]
        ensures { IfSome self.now.found (λ found. result.now ≡ found.items) }
    {
        match &self.found {
            Some(found) => found.as_slice(),
            None => &[],
        }
    }
}
