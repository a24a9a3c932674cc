//! Reads the address of a player from a word.
ghost use Rattle.std.specs.Prelude.{◌≡◌, ◌≢◌, ℕ, List, IfSome, MatchBool, MatchOption, None, Some, is_some, option_map};
ghost use Rattle.match_plans.specs.Addresses.{IsAddress, IsHostOf, IsIpv6, addressed_name, addressed_place, bracketed, cut_at_last, is_address};
ghost use Rattle.match_plans.specs.Numbers.{port_of};

use crate::numbers::decimal_from;
use desk_calls::is_name;
use std::net::Ipv6Addr;

/// The address of a player. In a word it is written `NAME@HOST:PORT`; the first `@` and the last `:` after it separate
/// the parts. An IPv6 address has brackets in the word, but not here.
#[derive(Clone, Copy, PartialEq, Eq)]
pub struct PlayerAddress<'a> {
    pub name: &'a str,
    pub host: &'a str,
    pub port: u16,
}

fn in_brackets(text: &str) -> Option<&str>
    ensures { MatchOption result ((inner : List ℕ) → text.now ≢ bracketed inner) (λ inner. text.now ≡ bracketed inner.now) }
{
    let Some(rest) = text.strip_prefix('[') else {
        return None;
    };
    rest.strip_suffix(']')
}

fn is_ipv6(text: &str) -> bool
    ensures { MatchBool result (IsIpv6 text.now) (¬ (IsIpv6 text.now)) }
{
    text.parse::<Ipv6Addr>().is_ok()
}

/// The host, without brackets if it is an IPv6 address. An address with a zone keeps its brackets; `network_players`
/// removes them.
fn plain_host(host: &str) -> &str
    ensures { IsHostOf host.now result.now }
{
    let Some(inner) = in_brackets(host) else {
        return host;
    };
    if is_ipv6(inner) { inner } else { host }
}

/// The number of a port, or `None` if the text is not a number from 1 to 65,535.
fn port_in(text: &str) -> Option<u16>
    ensures { result ≡ port_of text.now }
{
    Some(decimal_from(text, 1, 65_535)? as u16)
}

/// The parts before and after the first `@` of a word.
fn name_and_place(word: &str) -> Option<(&str, &str)>
    ensures { MatchOption result (addressed_place word.now ≡ None)
        (λ parts. (parts.0.now ≡ addressed_name word.now) × (cut_at_last 58 parts.1.now ≡ addressed_place word.now)) }
{
    word.split_once('@')
}

/// The parts before and after the last `:` of a text.
fn host_and_port(place: &str) -> Option<(&str, &str)>
    ensures { option_map (λ parts. (parts.0.now, parts.1.now)) result ≡ cut_at_last 58 place.now }
{
    place.rsplit_once(':')
}

/// Reads a player's address from a word. Returns `None` if there is no `@` or no `:` after it, if the name is not lawful, or
/// if the port is not a number from 1 to 65,535.
pub fn player_address(word: &str) -> Option<PlayerAddress<'_>>
    ensures address { IfSome result (IsAddress word.now) }
    ensures taken { is_some result ≡ is_address word.now }
{
    let Some((name, place)) = name_and_place(word) else {
        return None;
    };
    let Some((host, port)) = host_and_port(place) else {
        return None;
    };
    let Some(port) = port_in(port) else {
        return None;
    };
    if !is_name(name.as_bytes()) {
        return None;
    }
    Some(PlayerAddress {
        name,
        host: plain_host(host),
        port,
    })
}
