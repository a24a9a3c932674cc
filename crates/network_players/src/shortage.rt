//! System errors that mean that the referee lacks a resource, for example memory or a port.
ghost use Rattle.std.specs.Prelude.{◌≡◌, Some};
ghost use Rattle.std.specs.IoError.{error_kind, raw_os_error};
ghost use Rattle.network_players.specs.Shortages.{coded_shortage, error_shortages, is_of_either, lookup_shortage, shortage_in, system_shortage};

use match_plans::Shortage;
use std::io;
use std::io::ErrorKind;

/// What the referee lacks according to the number of a Linux error, for errors whose kind does not show this.
fn error_shortage(number: u32) -> Option<Shortage>
    ensures { result ≡ shortage_in error_shortages number }
{
    match number {
        // EPERM, from a rule of this computer's firewall.
        1 => Some(Shortage::Network),
        // ENFILE and EMFILE.
        23 | 24 => Some(Shortage::Descriptors),
        // EAFNOSUPPORT.
        97 => Some(Shortage::Network),
        // ECONNABORTED, from this computer's administrator.
        103 => Some(Shortage::Network),
        // ENOBUFS.
        105 => Some(Shortage::Memory),
        _ => None,
    }
}

/// Whether an error with this number can come both from this computer and from the player or a router on the way to it. A probe decides.
pub(crate) fn is_of_either(number: Option<i32>) -> bool
    ensures { result ≡ is_of_either number }
{
    match number {
        // EACCES, EINVAL, ENETUNREACH and EHOSTUNREACH.
        Some(number) => matches!(number.unsigned_abs(), 13 | 22 | 101 | 113),
        None => false,
    }
}

/// What the referee lacks according to an error with this kind and number.
pub(crate) fn system_shortage(kind: ErrorKind, number: Option<i32>) -> Option<Shortage>
    ensures { result ≡ system_shortage kind number }
{
    match kind {
        ErrorKind::OutOfMemory => Some(Shortage::Memory),
        ErrorKind::AddrNotAvailable | ErrorKind::WouldBlock => Some(Shortage::Ports),
        ErrorKind::NetworkDown => Some(Shortage::Network),
        _ => match number {
            Some(number) => error_shortage(number.unsigned_abs()),
            None => None,
        },
    }
}

/// What the referee lacks according to a system error on the way to a player. `None` if the player or its network can cause the error.
pub fn shortage_of(error: &io::Error) -> Option<Shortage>
    ensures { result ≡ system_shortage (error_kind error.now) (raw_os_error error.now) }
{
    system_shortage(error.kind(), error.raw_os_error())
}

/// What the referee lacked when the lookup of a host failed, from the error's kind and number, and from what this
/// computer lacks if it has no network. `None` if the host has no address. If the resolver reports that the name does not
/// exist (`is_unknown`), or that it cannot tell, the error has no number.
pub(crate) fn lookup_shortage(
    kind: ErrorKind,
    number: Option<i32>,
    is_unknown: bool,
    without_network: Option<Shortage>,
) -> Option<Shortage>
    ensures { result ≡ lookup_shortage kind number is_unknown without_network }
{
    match (kind, number) {
        (ErrorKind::OutOfMemory, _) => Some(Shortage::Memory),
        (_, Some(number)) => {
            let known = error_shortage(number.unsigned_abs());
            Some(known.unwrap_or(Shortage::Resolver))
        }
        (_, None) if is_unknown => None,
        (_, None) => without_network,
    }
}

/// The code that threads use to share what the referee lacks.
pub(crate) fn code_of(shortage: Shortage) -> u64
    ensures { coded_shortage result ≡ Some shortage }
{
    match shortage {
        Shortage::Descriptors => 1,
        Shortage::Ports => 2,
        Shortage::Memory => 3,
        Shortage::Clock => 4,
        Shortage::Resolver => 5,
        Shortage::Network => 6,
        Shortage::Processor => 7,
    }
}

/// What the referee lacks according to this code. 0 means nothing.
pub(crate) fn coded(code: u64) -> Option<Shortage>
    ensures { result ≡ coded_shortage code }
{
    match code {
        1 => Some(Shortage::Descriptors),
        2 => Some(Shortage::Ports),
        3 => Some(Shortage::Memory),
        4 => Some(Shortage::Clock),
        5 => Some(Shortage::Resolver),
        6 => Some(Shortage::Network),
        7 => Some(Shortage::Processor),
        _ => None,
    }
}
