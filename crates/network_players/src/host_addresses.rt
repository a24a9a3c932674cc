//! Looks up the addresses of a host. A lookup takes as long as this computer's resolver takes.

use crate::routes::{Routes, lack_of_network, lack_since, lacks_route};
use crate::shortage::{lookup_shortage, shortage_of};
use match_plans::Shortage;
use std::alloc::{AllocError, Global};
use std::io;
use std::io::ErrorKind;
use std::net::{IpAddr, Ipv6Addr, Net, SocketAddr, ToSocketAddrs};
use std::os::unix::net::UnixStream;

/// The host without its brackets if it is an IPv6 address with a zone, or else `None`.
fn zoned(host: &str) -> Option<&str> {
    let inner = host.strip_prefix('[')?.strip_suffix(']')?;
    let (address, _) = inner.split_once('%')?;
    address.parse::<Ipv6Addr>().ok()?;
    Some(inner)
}

pub(crate) fn is_address(host: &str) -> bool {
    host.parse::<IpAddr>().is_ok() || zoned(host).is_some()
}

/// Whether the resolver reports that the name does not exist or has no address. Only the end of its message shows this. A host with a zero
/// byte is not a name either.
fn is_unknown(alloc: Global, error: &io::Error) -> Result<bool, AllocError> {
    let words = error.to_string(alloc)?;
    Ok(
        words.as_str().ends_with("Name or service not known")
            || words
                .as_str()
                .ends_with("No address associated with hostname")
            || error.kind() == ErrorKind::InvalidInput,
    )
}

/// What the referee lacked when a lookup failed with this error. `None` if the host has no address. `before` is what this
/// computer lacked when the lookup began, if it had no network.
fn failed_lookup<N: Routes>(
    net: &N,
    alloc: Global,
    error: &io::Error,
    before: Option<Shortage>,
) -> Option<Shortage> {
    let (is_unknown, lack) = match is_unknown(alloc, error) {
        Ok(true) => (true, None),
        Ok(false) => (false, lack_since(net, before)),
        Err(AllocError) => return Some(Shortage::Memory),
    };
    lookup_shortage(error.kind(), error.raw_os_error(), is_unknown, lack)
}

/// Looks up the addresses of the host once. Returns an empty list if there are none. The error is what the referee lacked.
fn told_addresses<N: Routes>(
    net: &N,
    alloc: Global,
    host: &str,
    port: u16,
) -> Result<Vec<SocketAddr>, Shortage> {
    let host = zoned(host).unwrap_or(host);
    let lack = lack_of_network(net);
    let found = match (host, port).to_socket_addrs(net) {
        Ok(found) => found,
        Err(error) => match failed_lookup(net, alloc, &error, lack) {
            Some(shortage) => return Err(shortage),
            None => return Ok(Vec::new(alloc)),
        },
    };
    match found.collect(alloc) {
        Ok(addresses) => Ok(addresses),
        Err(_) => Err(Shortage::Memory),
    }
}

/// What the referee lacks, if the lack may be the reason why the resolver found no address. The resolver needs as many open descriptors
/// as two pairs of sockets.
fn resolver_shortage<N: Net>(net: &N) -> Option<Shortage> {
    let first = UnixStream::pair(net);
    let second = UnixStream::pair(net);
    if let Err(error) = &first {
        return shortage_of(error);
    }
    match &second {
        Ok(_) => None,
        Err(error) => shortage_of(error),
    }
}

/// Looks up the addresses of the host. Returns an empty list if it has none that this computer can use. The error is what the referee
/// lacked.
pub(crate) fn addresses<N: Routes>(
    net: &N,
    alloc: Global,
    host: &str,
    port: u16,
) -> Result<Vec<SocketAddr>, Shortage> {
    let found = told_addresses(net, alloc, host, port)?;
    for address in &found {
        if !lacks_route(net, address) {
            return Ok(found);
        }
    }
    if found.is_empty() {
        // Without a file descriptor the resolver finds no address for any name.
        if let Some(shortage) = resolver_shortage(net) {
            return Err(shortage);
        }
    }
    Ok(Vec::new(alloc))
}
