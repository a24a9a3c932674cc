//! Answers to INFO.
ghost use Rattle.std.specs.Prelude.{◌≡◌, IfOk};
ghost use Rattle.kif_text.specs.View.{view, views};
ghost use Rattle.match_messages.specs.InfoReading.{status_named, is_key, status_pair, status_member, first_status, info_in, info_reading};

use kif_text::{Expr, KifFault, fold, read_one};
use std::alloc::{AllocError, Global};

/// A player's status, according to its answer.
#[derive(Clone, Copy, Debug, PartialEq, Eq)]
pub enum Info {
    Available,
    Ready,
    Busy,
    /// The answer gives no status.
    Unknown,
}

fn status_named(expr: &Expr) -> Info
    ensures { result ≡ status_named (view expr.now) }
{
    let Expr::Atom(word) = expr else {
        return Info::Unknown;
    };
    let word = word.as_slice();
    if word == b"available".as_slice() {
        Info::Available
    } else if word == b"ready".as_slice() {
        Info::Ready
    } else if word == b"busy".as_slice() {
        Info::Busy
    } else {
        Info::Unknown
    }
}

fn is_key(expr: &Expr) -> bool
    ensures { result ≡ is_key (view expr.now) }
{
    match expr {
        Expr::Atom(word) => word.as_slice() == b"status".as_slice(),
        Expr::List(_) => false,
    }
}

/// The status of a member `(status S)`.
fn status_member(member: &Expr) -> Option<Info>
    ensures { result ≡ status_member (view member.now) }
{
    match member {
        Expr::Atom(_) => None,
        Expr::List(pair) => status_pair(pair.as_slice()),
    }
}

/// The status S if the members are `status S`.
fn status_pair(members: &[Expr]) -> Option<Info>
    ensures { result ≡ status_pair (views members.now) }
{
    match members {
        [key, status] => {
            if is_key(key) {
                Some(status_named(status))
            } else {
                None
            }
        }
        _ => None,
    }
}

/// The status of the first member `(status S)`.
fn first_status(members: &[Expr]) -> Option<Info>
    ensures { result ≡ first_status (views members.now) }
{
    for member in members {
        let status = status_member(member);
        if status.is_some() {
            return status;
        }
    }
    None
}

/// The status in an answer that is in lower case.
fn info_in(expr: &Expr) -> Info
    ensures { result ≡ info_in (view expr.now) }
{
    match expr {
        Expr::Atom(_) => status_named(expr),
        Expr::List(members) => first_status(members.as_slice()).unwrap_or(Info::Unknown),
    }
}

/// Reads an answer to INFO, in upper or lower case: the atom `available`, `ready` or `busy`, or a list. In a list, the first
/// member of the form `(status S)` gives the status S. Any other text gives `Unknown`.
pub fn read_info(alloc: Global, text: &[u8]) -> Result<Info, AllocError>
    ensures { IfOk result (λ i. i ≡ info_reading text.now) }
{
    match read_one(alloc, text) {
        Ok(mut expr) => {
            fold(&mut expr);
            Ok(info_in(&expr))
        }
        Err(KifFault::Memory) => Err(AllocError),
        Err(_) => Ok(Info::Unknown),
    }
}
