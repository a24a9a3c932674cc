//! The routes of this computer.
ghost use Rattle.std.specs.Prelude.{◌≡◌, ◌↔◌, IfSome, IsTrue, None, Some};
ghost use Rattle.std.specs.IoError.{error_kind, raw_os_error};
ghost use Rattle.std.specs.Net.Addr.{is_ipv4};
ghost use Rattle.std.specs.Net.Socket.{socket_ip};
ghost use Rattle.match_plans.specs.declared.shortages.Shortage.TheVariants.{Network};
ghost use Rattle.network_players.specs.Shortages.{route_shortage};

use crate::shortage::shortage_of;
use match_plans::Shortage;
use std::io;
use std::net::{IpAddr, Ipv4Addr, Ipv6Addr, Net, SocketAddr, UdpSocket};

/// `ENETUNREACH` of Linux: no route leads to an address.
const UNREACHABLE: i32 = 101;

/// How often the way to an address is determined, because a computer with several default routes may use them in turn.
const MAX_SOURCES: u32 = 8;

/// The address that this computer uses to reach other addresses of the same family.
pub(crate) fn any_address(address: &SocketAddr) -> SocketAddr
    ensures { is_ipv4 (socket_ip result) ≡ is_ipv4 (socket_ip address.now) }
{
    match address {
        SocketAddr::V4(_) => SocketAddr::new(IpAddr::V4(Ipv4Addr::UNSPECIFIED), 0),
        SocketAddr::V6(_) => SocketAddr::new(IpAddr::V6(Ipv6Addr::UNSPECIFIED), 0),
    }
}

/// An IPv4 or IPv6 address that no computer has, because it is reserved for documentation. Only a default route leads there.
pub(crate) fn outside(is_of_ipv4: bool) -> SocketAddr
    ensures { is_ipv4 (socket_ip result) ≡ is_of_ipv4 }
{
    let ip = if is_of_ipv4 {
        IpAddr::V4(Ipv4Addr::new(203, 0, 113, 1))
    } else {
        IpAddr::V6(Ipv6Addr::new(0x2001, 0xdb8, 0, 0, 0, 0, 0, 1))
    };
    SocketAddr::new(ip, 9)
}

/// What this computer lacks if it finds no route with this error.
fn route_shortage(error: &io::Error) -> Shortage
    ensures { result ≡ route_shortage (error_kind error.now) (raw_os_error error.now) }
{
    match shortage_of(error) {
        Some(Shortage::Descriptors) => Shortage::Descriptors,
        Some(Shortage::Memory) => Shortage::Memory,
        _ => Shortage::Network,
    }
}

/// A network with known routes.
pub trait Routes: Net {
    /// The address of this computer that packets to the given address leave from, with port 0. The error means that there is no route, or
    /// no socket to find the route. Sends nothing.
    fn source(&self, address: &SocketAddr) -> io::Result<SocketAddr>;

    /// Tries to send an empty datagram to the address. Only this computer's interfaces, routes and firewall can make this fail: the socket
    /// is new, so it cannot have received a reply.
    fn probe(&self, address: &SocketAddr) -> io::Result<()>;
}

/// The network of a runtime.
impl<R: Net + Copy + Send + 'static> Routes for R {
    fn source(&self, address: &SocketAddr) -> io::Result<SocketAddr> {
        let socket = UdpSocket::bind(self, any_address(address))?;
        socket.connect(*address)?;
        let mut source = socket.local_addr()?;
        source.set_port(0);
        Ok(source)
    }

    fn probe(&self, address: &SocketAddr) -> io::Result<()> {
        let socket = UdpSocket::bind(self, any_address(address))?;
        if socket.connect(*address).is_err() {
            // Without this, the system refuses a broadcast address. With it, only a missing route makes the system refuse.
            socket.set_broadcast(true)?;
            return socket.connect(*address);
        }
        match socket.send(&[]) {
            Err(error) if shortage_of(&error).is_some() => Err(error),
            _ => Ok(()),
        }
    }
}

/// What this computer lacks if it has no route to the address.
fn lack_of_route<N: Routes>(net: &N, address: &SocketAddr) -> Option<Shortage> {
    match net.source(address) {
        Ok(_) => None,
        Err(error) => Some(route_shortage(&error)),
    }
}

/// What this computer lacks if packets to the IPv4 address no longer leave from `home`, the address that they left from before. A route
/// that refuses only this address does not count. An IPv6 address does not count, because a router can change routes and addresses of IPv6.
pub(crate) fn lack_of_home<N: Routes>(
    net: &N,
    home: &SocketAddr,
    address: &SocketAddr,
) -> Option<Shortage> {
    if !home.ip().to_canonical().is_ipv4() {
        return None;
    }
    for _ in 0..MAX_SOURCES {
        match net.source(address) {
            Ok(source) if source.ip() != home.ip() => {}
            Err(error) if error.raw_os_error() == Some(UNREACHABLE) => {}
            _ => return None,
        }
    }
    Some(Shortage::Network)
}

/// What this computer lacks if it has a default route neither for IPv4 nor for IPv6.
pub(crate) fn lack_of_network<N: Routes>(net: &N) -> Option<Shortage> {
    lack_of_route(net, &outside(true))?;
    lack_of_route(net, &outside(false))
}

/// What this computer lacked before or lacks now, if it had no network before or has none now.
pub(crate) fn lack_since<N: Routes>(net: &N, before: Option<Shortage>) -> Option<Shortage>
    ensures { IfSome before (λ shortage. result ≡ Some shortage) }
{
    match before {
        Some(_) => before,
        None => lack_of_network(net),
    }
}

/// Whether this computer has a network but no route to an address, given what it lacks for that route and for a default route.
fn is_without_route(to_address: Option<Shortage>, by_default: Option<Shortage>) -> bool
    ensures { IsTrue result ↔ (to_address ≡ Some Network) × (by_default ≡ None) }
{
    matches!((to_address, by_default), (Some(Shortage::Network), None))
}

/// Whether this computer has a default route of IPv4 or IPv6, but no route to the address.
pub(crate) fn lacks_route<N: Routes>(net: &N, address: &SocketAddr) -> bool {
    let to_address = lack_of_route(net, address);
    to_address.is_some() && is_without_route(to_address, lack_of_network(net))
}
