//! Sends a player one message over a separate connection.
ghost use Rattle.std.specs.Prelude.{◌≡◌, ◌-◌};
ghost use Rattle.std.specs.Duration.{as_nanos};
ghost use Rattle.std.specs.IoError.{error_kind, raw_os_error};
ghost use Rattle.network_players.specs.Contacts.{address_fault, after_try, connect_fault, fault_at_end, fault_at_refusal, fault_so_far, is_cut_by_stop, is_of_network, longest_pause, outcome_of};

use crate::deadline::{Deadline, LATE, TimedStream, doubled, first_limit, is_gone, try_limit};
use crate::lookup::{Lookup, Resolves};
use crate::routes::{Routes, lacks_route, outside};
use crate::shortage::{is_of_either, shortage_of};
use desk_calls::MAX_CLOCK;
use game_core::{Counted, Text};
use http_exchange::{Received, WireFault, exchange_shared};
use match_plans::{PlayerAddress, Shortage};
use shared_text::SharedText;
use std::alloc::Global;
use std::error::Error;
use std::io::ErrorKind;
use std::net::{IpAddr, Net, SocketAddr, TcpStream};
use std::time::{Clock, Duration};
use std::{fmt, io, thread};

/// Why a message brought no answer.
#[derive(Clone, Copy, PartialEq, Eq)]
pub enum ContactFault {
    /// The host has no address that this computer can use.
    NoAddress,
    /// None of the host's addresses accepts a connection. The system may have given up before the time was over.
    NoConnection,
    /// The time was over before the connection was made, the request written or the reply read.
    Late(Received),
    /// The referee lacked this resource. The message was not sent, or was sent too late to be answered in time, or its answer was lost.
    Shortage(Shortage),
    /// Together, the player's answers in the match have more bytes than allowed.
    OverBudget,
    /// The reply has this status, which is not 200.
    Status(u16),
    /// The exchange on the connection failed with this error.
    Exchange(WireFault, Received),
}

impl fmt::Display for ContactFault {
    fn fmt<W: fmt::Write>(&self, f: &mut fmt::Formatter<W>) -> fmt::Result {
        match *self {
            ContactFault::NoAddress => f.write_str("the host has no address"),
            ContactFault::NoConnection => f.write_str("no connection"),
            ContactFault::OverBudget => f.write_str("the answers of the match are too long"),
            ContactFault::Shortage(shortage) => fmt::Display::fmt(&shortage, f),
            ContactFault::Late(received) => write!(f, "no answer in time: {received}"),
            ContactFault::Exchange(fault, received) => write!(f, "{fault}: {received}"),
            ContactFault::Status(status) => {
                let note = if status < 200 {
                    "which only announces an answer"
                } else {
                    "not 200"
                };
                write!(f, "the status is {status}, {note}")
            }
        }
    }
}

/// The same text as `Display`.
impl fmt::Debug for ContactFault {
    fn fmt<W: fmt::Write>(&self, f: &mut fmt::Formatter<W>) -> fmt::Result {
        fmt::Display::fmt(self, f)
    }
}

impl Error for ContactFault {}

/// Explains why the last message brought no answer.
pub trait Explains {
    /// The reason, or `None` if there was an answer or no reason is known.
    fn why(&self) -> Option<ContactFault> {
        None
    }
}

/// The error number for a packet that this computer's firewall stops.
const EPERM: i32 = 1;

/// For this many seconds, the referee repeats an attempt to connect that fails. A player that restarts in this time misses
/// nothing.
const RETRY_SECONDS: u64 = 2;

/// The first pause before another attempt to connect, in milliseconds. Only pauses after a lookup without an address grow.
const PAUSE_MILLIS: u64 = 50;

/// The longest pause after a lookup that found no address, in milliseconds. Longer pauses spare the name server.
const LOOKUP_PAUSE_MILLIS: u64 = 500;

/// The largest number of attempts to connect for one message. With their pauses, they take longer than any clock and any wait for a
/// resource of the referee.
const MAX_CONNECTS: u32 = 4_000_000;

const _: () = prove!(MAX_CONNECTS as u64 * PAUSE_MILLIS > 2 * MAX_CLOCK as u64 * 1_000);

/// A message is sent at most this often, if the player closes the connection each time because the program was not running.
const MAX_SENDS: u32 = 10;

/// The error of a message that could not be sent again after the program had not been running.
const STOPPED: ContactFault = ContactFault::Shortage(Shortage::Processor);

/// The error of a message: `fault` is the error of the last attempt, and `halt` is the reason why no further attempt followed. If one of
/// the two names a resource that the referee lacks, the result is this one, and otherwise `fault`.
fn fault_at_end(fault: ContactFault, halt: ContactFault) -> ContactFault
    ensures { result ≡ fault_at_end fault halt }
{
    match (fault, halt) {
        (ContactFault::Shortage(_), _) => fault,
        (_, ContactFault::Shortage(_)) => halt,
        _ => fault,
    }
}

/// The error of an address that accepted no connection. If the time is over, the system error is `TimedOut` without a number. A system error
/// with a number comes from Linux: `ETIMEDOUT` means that Linux gave up at its own limit.
fn address_fault(error: &io::Error) -> ContactFault
    ensures { result ≡ address_fault (error_kind error.now) (raw_os_error error.now) }
{
    match (error.kind(), error.raw_os_error()) {
        (ErrorKind::TimedOut, None) => LATE,
        _ => match shortage_of(error) {
            Some(shortage) => ContactFault::Shortage(shortage),
            None => ContactFault::NoConnection,
        },
    }
}

/// Whether the address can belong to a single host. The system refuses connections to all other addresses, and such a refusal counts
/// against the player.
fn is_of_a_host(address: &SocketAddr) -> bool {
    let is_zoned = match address {
        SocketAddr::V4(_) => true,
        SocketAddr::V6(address) => {
            !address.ip().is_unicast_link_local() || address.scope_id() != 0
        }
    };
    match address.ip().to_canonical() {
        IpAddr::V4(ip) => !ip.is_multicast() && !ip.is_broadcast(),
        IpAddr::V6(ip) => !ip.is_multicast() && is_zoned,
    }
}

/// Whether the error says that this computer's firewall stopped a datagram.
fn is_forbidden(error: &io::Error) -> bool {
    error.raw_os_error() == Some(EPERM)
}

/// Sends the probe to an address outside the network of this computer, with the version of IP that packets to the address use.
fn probe_outside<N: Routes>(net: &N, address: &SocketAddr) -> io::Result<()> {
    net.probe(&outside(address.ip().to_canonical().is_ipv4()))
}

/// Whether a probe that was refused with this error shows nothing about this computer's network, because only the address is the
/// cause, or because the firewall passes only connections. The owner of the player chooses the address, and the
/// player's router can remove the routes of an address family.
fn is_of_address<N: Routes>(net: &N, address: &SocketAddr, error: &io::Error) -> bool {
    match probe_outside(net, address) {
        Ok(()) => true,
        Err(outside) => {
            (is_forbidden(error) && is_forbidden(&outside)) || lacks_route(net, address)
        }
    }
}

/// What this computer lacks if it cannot send anything to the address. `None` if this computer can send, if no computer
/// could, or if only the address is the cause.
fn refusal<N: Routes>(net: &N, address: &SocketAddr) -> Option<Shortage> {
    if !is_of_a_host(address) {
        return None;
    }
    let Err(error) = net.probe(address) else {
        return None;
    };
    let shortage = shortage_of(&error).unwrap_or(Shortage::Network);
    if shortage == Shortage::Network && is_of_address(net, address, &error) {
        return None;
    }
    Some(shortage)
}

/// What this computer lacks if it cannot send anything to any of the addresses. `None` if `refusal` is `None` for one of
/// them, or if there are none.
fn refusal_of_all<N: Routes>(net: &N, addresses: &[SocketAddr]) -> Option<Shortage> {
    let mut last = None;
    for address in addresses {
        last = Some(refusal(net, address)?);
    }
    last
}

/// The error of an address to which no connection was made. If this computer may have caused the error (`may_be_own`),
/// `refusal` is the resource that this computer lacks according to a probe.
fn connect_fault(error: &io::Error, may_be_own: bool, refusal: Option<Shortage>) -> ContactFault
    ensures { result ≡ connect_fault (error_kind error.now) (raw_os_error error.now) may_be_own refusal }
{
    match (may_be_own, refusal) {
        (false, _) => address_fault(error),
        (true, Some(shortage)) => ContactFault::Shortage(shortage),
        (true, None) => ContactFault::NoConnection,
    }
}

/// The error of an address to which no connection was made. If the player or a router on the way can cause the error too,
/// this probes what this computer lacks. If this computer has lost the family of the address, each address of that family
/// gives the error for a lack of ports or of a network. A computer that can send to an address outside does not lack a network.
fn fault_of<N: Routes>(net: &N, address: &SocketAddr, error: &io::Error) -> ContactFault {
    let may_be_own = is_of_either(error.raw_os_error());
    let refusal = if may_be_own {
        refusal(net, address)
    } else {
        None
    };
    match connect_fault(error, may_be_own, refusal) {
        ContactFault::Shortage(Shortage::Ports | Shortage::Network) if lacks_route(net, address) =>
            { ContactFault::NoConnection }
        ContactFault::Shortage(Shortage::Network) if probe_outside(net, address).is_ok() => {
            ContactFault::NoConnection
        }
        fault => fault,
    }
}

/// Whether a message failed in the network, and not because of what the player sent.
fn is_of_network(fault: ContactFault) -> bool
    ensures { result ≡ is_of_network fault }
{
    matches!(
        fault,
        ContactFault::Late(_)
            | ContactFault::NoConnection
            | ContactFault::Exchange(WireFault::ReadFault(_) | WireFault::WriteFault, _)
    )
}

/// The error of a message that failed in the network. It counts against the player only if this computer can send to the player.
pub(crate) fn fault_at_refusal(fault: ContactFault, refusal: Option<Shortage>) -> ContactFault
    ensures { result ≡ fault_at_refusal refusal fault }
{
    match refusal {
        Some(shortage) => ContactFault::Shortage(shortage),
        None => fault,
    }
}

/// The error of a message that failed with `fault`. If the message failed in the network, and this computer can no longer send to the player
/// as before or not at all, the error says what this computer lacks.
fn blamed<N: Routes>(net: &N, lookup: &Lookup, fault: ContactFault) -> ContactFault {
    if !is_of_network(fault) {
        return fault;
    }
    let lack = match lookup.lack_of_home(net, 0) {
        Some(shortage) => Some(shortage),
        None => refusal_of_all(net, lookup.addresses()),
    };
    fault_at_refusal(fault, lack)
}

/// The error of all addresses so far, from the error of the earlier addresses and the error of the last one. A lack of ports or of a network
/// counts only if no address gave another error.
fn fault_so_far(before: ContactFault, last: ContactFault) -> ContactFault
    ensures { result ≡ fault_so_far before last }
{
    match (before, last) {
        (ContactFault::Shortage(Shortage::Ports | Shortage::Network), last) => last,
        (ContactFault::Shortage(shortage), _) => ContactFault::Shortage(shortage),
        (ContactFault::NoAddress, last) => last,
        (before, ContactFault::Shortage(Shortage::Ports | Shortage::Network)) => before,
        (_, last) => last,
    }
}

/// The outcome of an exchange, from the halt of the last read or write, if there was one, and from how far the exchange
/// got.
fn outcome_of(
    halt: Option<ContactFault>,
    received: Received,
    exchanged: Result<Text, WireFault>,
) -> Result<Text, ContactFault>
    ensures { result ≡ outcome_of halt received exchanged }
{
    match halt {
        Some(ContactFault::Late(_)) => return Err(ContactFault::Late(received)),
        Some(fault) => return Err(fault),
        None => {}
    }
    match (exchanged, received) {
        (Ok(text), _) => Ok(text),
        (Err(WireFault::Memory), _) => Err(ContactFault::Shortage(Shortage::Memory)),
        (Err(WireFault::BadStatus), Received::Status(status, _)) => {
            Err(ContactFault::Status(status))
        }
        (Err(fault), _) => Err(ContactFault::Exchange(fault, received)),
    }
}

/// Connects to an address within the limit. A connection that the player closed while the program was not running counts as
/// no connection. A stop costs nothing if the attempt succeeds, and otherwise no more than the time of a first attempt.
fn connect_to<N: Routes + Clock>(
    net: &N,
    address: &SocketAddr,
    limit: Duration,
    deadline: &mut Deadline,
) -> Result<N::Stream, ContactFault> {
    let (left, before) = (deadline.left, deadline.stopped_at);
    deadline.stopped_at = None;
    let tried = TcpStream::connect_timeout(net, address, limit);
    // The next step finds out whether time is left.
    let _ = deadline.after(net, limit);
    let is_stopped = deadline.stopped_at.is_some();
    let connected = match tried {
        Ok(stream) if (is_stopped || before.is_some()) && is_gone(net, &stream) => {
            Err(ContactFault::NoConnection)
        }
        Ok(stream) => Ok(stream),
        Err(error) => Err(fault_of(net, address, &error)),
    };
    if !is_stopped {
        deadline.stopped_at = before;
        return connected;
    }
    let cost = match &connected {
        Ok(_) => Duration::ZERO,
        Err(_) => first_limit(left),
    };
    deadline.left = deadline.left.max(left.saturating_sub(cost));
    deadline.stopped_at = Some(deadline.left);
    connected
}

/// Tries each of the addresses once, until one accepts a connection. If an address has accepted a connection before, this tries only that one.
/// Otherwise a player whose host name also has the address of another player could pass its message on to that player. On entry, `silent` is
/// the number of addresses that did not answer in earlier attempts; on return, in these attempts. It is 0 if no further attempts follow.
/// Each further attempt at an address takes at most `longest`.
fn try_each<N: Routes + Clock>(
    net: &N,
    lookup: &mut Lookup,
    deadline: &mut Deadline,
    silent: &mut u32,
    longest: Duration,
) -> Result<N::Stream, ContactFault> {
    let (before, mut now) = (*silent, 0u32);
    *silent = 0;
    let mut fault = ContactFault::NoAddress;
    let count = if lookup.has_preferred {
        1
    } else {
        lookup.addresses().len()
    };
    for place in 0..count {
        let Some(&address) = lookup.addresses().get(place) else {
            break;
        };
        let left = match deadline.after(net, Duration::ZERO) {
            Ok(left) => left,
            Err(halt) => return Err(fault_so_far(fault, halt)),
        };
        let limit = try_limit(left, before.saturating_sub(now), count - place, longest);
        let last = match connect_to(net, &address, limit, deadline) {
            Ok(stream) => {
                lookup.prefer(net, place);
                return Ok(stream);
            }
            Err(last) => fault_at_refusal(last, lookup.lack_of_home(net, place)),
        };
        match last {
            ContactFault::Late(_) => now = now.saturating_add(1),
            last => fault = fault_so_far(fault, last),
        }
    }
    *silent = now;
    Err(fault)
}

/// Connects to the first of the addresses that accepts a connection, within the time that is left. Tries addresses that did not
/// answer again, unless the referee lacked a resource for another address. Short attempts show a stop of the program, and long ones reach a
/// player that is far away, so each attempt may take twice as long as the one before.
fn connect_once<N: Routes + Clock>(
    net: &N,
    lookup: &mut Lookup,
    deadline: &mut Deadline,
) -> Result<N::Stream, ContactFault> {
    let (mut silent, mut longest) = (0, Duration::from_secs(1));
    for _ in 0..MAX_CONNECTS {
        let tried = try_each(net, lookup, deadline, &mut silent, longest);
        if silent == 0 || matches!(tried, Err(ContactFault::Shortage(_))) {
            return tried;
        }
        longest = longest.saturating_mul(2);
    }
    Err(LATE)
}

/// The longest pause after an attempt with this error.
fn longest_pause(fault: ContactFault) -> Duration
    ensures { as_nanos result ≡ longest_pause fault }
{
    match fault {
        ContactFault::NoAddress => Duration::from_millis(LOOKUP_PAUSE_MILLIS),
        _ => Duration::from_millis(PAUSE_MILLIS),
    }
}

/// Pauses before the next attempt to connect, for at most `limit`. If no time is left for another attempt, returns the error of the message.
/// `fault` is the error of this attempt.
fn pause<N: Clock>(
    net: &N,
    deadline: &mut Deadline,
    fault: ContactFault,
    limit: Duration,
) -> Result<(), ContactFault> {
    let paused = match deadline.after(net, Duration::ZERO) {
        Ok(left) => {
            let pause = left.min(limit);
            thread::sleep(net, pause);
            deadline.after(net, pause)
        }
        Err(halt) => Err(halt),
    };
    match paused {
        Ok(_) => Ok(()),
        Err(halt) => Err(fault_at_end(fault, halt)),
    }
}

/// What follows an attempt to connect that failed.
enum AfterTry {
    /// Another attempt, because the referee lacked a resource. If the player accepts no connection, the seconds of patience begin again.
    Waits,
    /// Another attempt.
    Tries,
    /// No further attempt: the message has this error.
    Ends(ContactFault),
}

/// What follows an attempt with the error `fault`, after one with the error `before`. If the player accepts no connection, or its
/// host has no address, another attempt follows only if `is_patient`. An attempt without time left does not count, so the error is that of the
/// earlier attempt.
fn after_try(fault: ContactFault, before: ContactFault, is_patient: bool) -> AfterTry
    ensures { result ≡ after_try before is_patient fault }
{
    match fault {
        ContactFault::Shortage(_) => AfterTry::Waits,
        ContactFault::NoConnection | ContactFault::NoAddress if is_patient => AfterTry::Tries,
        ContactFault::Late(_) => AfterTry::Ends(before),
        _ => AfterTry::Ends(fault),
    }
}

/// If a player accepts no connection, the referee tries again until only this time is left. `left` is the time that is left now.
fn patience_from(left: Duration) -> Duration
    ensures { as_nanos result ≡ as_nanos left - 2_000_000_000 }
{
    left.saturating_sub(Duration::from_secs(RETRY_SECONDS))
}

/// Pauses after an attempt for which the referee lacked a resource. The attempt and the pause cost the message nothing of the time that it had
/// before, `left`. They are taken from `spare`, the time for which the message may still wait for the referee. If no such time is left,
/// returns the error of the attempt.
fn wait_for_resource<N: Clock>(
    net: &N,
    deadline: &mut Deadline,
    fault: ContactFault,
    left: Duration,
    spare: &mut Duration,
) -> Result<(), ContactFault>
    ensures { deadline.new.left ≡ left }
{
    let spent = left.saturating_sub(deadline.left);
    deadline.left = spare.saturating_sub(spent);
    let paused = pause(net, deadline, fault, Duration::from_millis(PAUSE_MILLIS));
    *spare = deadline.left;
    deadline.left = left;
    paused
}

/// Connects to the player within the time that is left. Tries again while the referee lacks a resource, for as long as the message has time
/// at first; this costs the message none of its time. If the player accepts no connection or its host has no address, tries again for some
/// seconds. These are counted from the start of the message, from the last time that the referee lacked a resource, or from an attempt during
/// which the program was not running.
fn connect<N: Resolves + Clock>(
    net: &N,
    alloc: Global,
    player: &PlayerAddress<'_>,
    lookup: &mut Lookup,
    deadline: &mut Deadline,
) -> Result<N::Stream, ContactFault> {
    let mut spare = deadline.left;
    let mut patient_to = patience_from(deadline.left);
    let mut before = LATE;
    let mut limit = Duration::from_millis(PAUSE_MILLIS);
    for _ in 0..MAX_CONNECTS {
        deadline.stopped_at = None;
        let left = deadline.left;
        let connected = match lookup.look_up(net, alloc, player, deadline) {
            Ok(()) => connect_once(net, lookup, deadline),
            Err(fault) => Err(fault),
        };
        let fault = match connected {
            Ok(stream) => return Ok(stream),
            Err(fault) => fault,
        };
        if deadline.stopped_at.is_some() {
            patient_to = patience_from(deadline.left);
        }
        match after_try(fault, before, deadline.left > patient_to) {
            AfterTry::Waits => {
                wait_for_resource(net, deadline, fault, left, &mut spare)?;
                patient_to = patience_from(left);
            }
            AfterTry::Tries => {
                pause(net, deadline, fault, limit)?;
                before = fault;
            }
            AfterTry::Ends(fault) => return Err(fault),
        }
        limit = doubled(limit, longest_pause(fault));
    }
    Err(before)
}

/// Sends the player the message over the connection, and reads its answer.
fn exchange_over<N: Net + Clock>(
    net: &N,
    alloc: Global,
    player: &PlayerAddress<'_>,
    deadline: &mut Deadline,
    stream: N::Stream,
    message: &SharedText<'_>,
) -> Result<Text, ContactFault> {
    let mut stream = Counted::new(TimedStream::new(net, *deadline, stream));
    let mut received = Received::Unsent;
    let exchanged = exchange_shared(
        alloc,
        &mut stream,
        player.name.as_bytes(),
        message,
        &mut received,
    );
    let ended = stream.end();
    *deadline = ended.deadline;
    outcome_of(ended.halt, received, exchanged)
}

/// Whether the player may have closed the connection because the program had been stopped (`has_stopped`): it gave up waiting for the request
/// or for the rest of it. The whole request may have been written before this showed: then it counts only if `may_cross`.
fn is_cut_by_stop(fault: ContactFault, has_stopped: bool, may_cross: bool) -> bool
    ensures { result ≡ is_cut_by_stop has_stopped may_cross fault }
{
    has_stopped
        && match fault {
            ContactFault::Exchange(WireFault::WriteFault, Received::Unsent) => true,
            ContactFault::Exchange(
                WireFault::CutShort | WireFault::ReadFault(_),
                Received::Nothing,
            ) => may_cross,
            _ => false,
        }
}

/// Sends a player a message and returns the body of its answer. The lookup of the host, connecting, writing and reading
/// may take `seconds` seconds in total. The error says why there is no answer. Two waits do not count: for
/// resources that the referee lacks, at most `seconds` seconds, and while the program is not running. If the player closes the
/// connection because of such a stop, this sends the message again, and the message has its whole time again.
pub fn contact_found<N: Resolves + Clock>(
    net: &N,
    alloc: Global,
    player: &PlayerAddress<'_>,
    lookup: &mut Lookup,
    seconds: u32,
    message: &SharedText<'_>,
) -> Result<Text, ContactFault> {
    let mut deadline = Deadline::within(net, seconds)?;
    let whole = deadline.left;
    let mut may_cross = true;
    for _ in 0..MAX_SENDS {
        let reached = match connect(net, alloc, player, lookup, &mut deadline) {
            Ok(stream) => exchange_over(net, alloc, player, &mut deadline, stream, message),
            Err(fault) => Err(fault),
        };
        match reached {
            Ok(text) => return Ok(text),
            Err(fault) if is_cut_by_stop(fault, deadline.has_stopped(), may_cross) => {
                // A player that read the request and sent no answer could otherwise use each stop for more time.
                may_cross = may_cross && is_cut_by_stop(fault, true, false);
                deadline.left = whole;
            }
            Err(fault) => return Err(blamed(net, lookup, fault)),
        }
        let pause_limit = Duration::from_millis(PAUSE_MILLIS);
        pause(net, &mut deadline, STOPPED, pause_limit)?;
    }
    Err(STOPPED)
}

/// Sends a player a message and returns the body of its answer. Looks up the host only for this message. All steps
/// together may take `seconds` seconds. The error says why there is no answer.
pub fn contact<N: Resolves + Clock>(
    net: &N,
    alloc: Global,
    player: &PlayerAddress<'_>,
    seconds: u32,
    body: &[u8],
) -> Result<Text, ContactFault> {
    let message = SharedText::lent(alloc, body);
    contact_found(net, alloc, player, &mut Lookup::new(), seconds, &message)
}
