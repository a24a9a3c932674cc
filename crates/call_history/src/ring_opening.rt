//! Opens desks over rings.
ghost use Rattle.std.specs.Prelude.{◌≡◌, ◌+◌, ◌<◌, ◌≤◌, [], length, IfOk, IfErr};
ghost use Rattle.std.specs.List.{All};
ghost use Rattle.call_history.specs.Limits.{max_entries, max_lines, max_room};
ghost use Rattle.call_history.specs.RingLines.{posted_calls, taken_replies, IsPortOf, IsLineOf, IsNewLine, AreNewLines, HasRoom};
ghost use Rattle.call_history.specs.Rounds.{IsUnused};

use crate::journal::Journal;
use crate::object::Object;
use crate::port::Port;
use crate::ring_desk::RingDesk;
use crate::ring_line::RingLine;
use rtrb::RingBuffer;
use std::alloc::{AllocError, Global};

/// The largest number of slots in a ring.
pub const MAX_ROOM: u64 = 1_024;

/// Opens a desk with an empty history of at most `most` entries, and returns the desk and its lines. Each line has two
/// rings of `room` slots. If an allocation is refused, returns the object.
pub fn open_rings<O: Object>(
    alloc: Global,
    object: O,
    most: u64,
    lines: u32,
    room: u64,
) -> Result<(RingDesk<O>, Vec<RingLine<O>>), (O, AllocError)>
    requires lines { (1 ≤ lines) × (lines ≤ max_lines) }
    requires room { (1 ≤ room) × (room ≤ max_room) }
    requires most { (1 ≤ most) × (most ≤ max_entries) }
    requires opening { O.opening object ≡ object }
    ensures journal { IfOk result (λ opened. opened.0.journal ≡ record { object = object; history = []; most = most }) }
    ensures desk { IfOk result (λ opened. length opened.0.ports ≡ lines) }
    ensures count { IfOk result (λ opened. length opened.1.items ≡ lines) }
    ensures lines { IfOk result (λ opened. AreNewLines opened.0.ports opened.1.items) }
    ensures of_desk { IfOk result (λ opened. All (IsLineOf opened.0.ports) opened.1.items) }
    ensures room { IfOk result (λ opened. All (HasRoom room) opened.1.items) }
    ensures back { IfErr result (λ refused. refused.0 ≡ object) }
{
    let Ok(found) = vec![in alloc; false; lines as usize] else {
        return Err((object, AllocError));
    };
    let Ok(made_by_line) = vec![in alloc; 0u64; lines as usize] else {
        return Err((object, AllocError));
    };
    match make_lines(alloc, lines, room as usize) {
        Ok((ports, lines)) => {
            let journal = Journal::new(alloc, object, most);
            Ok((RingDesk::new(journal, ports, found, made_by_line), lines))
        }
        Err(refused) => Err((object, refused)),
    }
}

/// Takes the last line of a new desk. The number of the returned line is the number of lines that remain.
pub fn last_line<O: Object>(desk: &RingDesk<O>, lines: &mut Vec<RingLine<O>>) -> RingLine<O>
    requires some { 0 < length lines.old.items }
    requires within { length lines.old.items ≤ length desk.now.ports }
    requires new { AreNewLines desk.now.ports lines.old.items }
    ensures line { IsNewLine desk.now.ports (length lines.new.items) result }
    ensures of_desk { IsLineOf desk.now.ports result }
    ensures one_fewer { length lines.old.items ≡ length lines.new.items + 1 }
    ensures left { AreNewLines desk.now.ports lines.new.items }
{
    match lines.pop() {
        Some(line) => line,
        None => unreachable!(),
    }
}

/// Makes a line, and the desk's side of it.
fn make_line<O: Object>(
    alloc: Global,
    number: u32,
    room: usize,
) -> Result<(Port<O::Call, O::Reply>, RingLine<O>), AllocError>
    ensures unused { IfOk result (λ made. IsUnused made.0) }
    ensures rings { IfOk result (λ made. IsPortOf made.0 made.1) }
    ensures number { IfOk result (λ made. made.1.number ≡ number) }
    ensures posted { IfOk result (λ made. posted_calls made.1 ≡ []) }
    ensures taken { IfOk result (λ made. taken_replies made.1 ≡ []) }
    ensures room { IfOk result (λ made. HasRoom room made.1) }
{
    let (post, calls) = RingBuffer::new(alloc, room)?;
    let (replies, take) = RingBuffer::new(alloc, room)?;
    let port = Port {
        calls,
        replies,
        kept: None,
    };
    Ok((port, RingLine::new(number, post, take)))
}

/// Makes `count` lines, numbered from 0, and the desk's sides of them.
fn make_lines<O: Object>(
    alloc: Global,
    count: u32,
    room: usize,
) -> Result<(Vec<Port<O::Call, O::Reply>>, Vec<RingLine<O>>), AllocError>
    ensures ports { IfOk result (λ made. length made.0.items ≡ count) }
    ensures count { IfOk result (λ made. length made.1.items ≡ count) }
    ensures unused { IfOk result (λ made. All IsUnused made.0.items) }
    ensures lines { IfOk result (λ made. AreNewLines made.0.items made.1.items) }
    ensures of_ports { IfOk result (λ made. All (IsLineOf made.0.items) made.1.items) }
    ensures room { IfOk result (λ made. All (HasRoom room) made.1.items) }
{
    let mut ports = Vec::with_capacity(alloc, count as usize)?;
    let mut lines = Vec::with_capacity(alloc, count as usize)?;
    for number in 0..count {
        let (port, line) = make_line(alloc, number, room)?;
        ports.push(port)?;
        lines.push(line)?;
    }
    Ok((ports, lines))
}
