//! Checks that a desk over rings has served all calls of the returned lines.
ghost use Rattle.std.specs.Prelude.{◌≡◌, ◌<◌, ℕ, slice_index_or, length, MatchBool, MatchOption, min};
ghost use Rattle.std.specs.List.{All};
ghost use Rattle.call_history.specs.Parts.{part};
ghost use Rattle.call_history.specs.RingLines.{IsPortOf, SamePort, SamePorts, AreEndsOf};
ghost use Rattle.call_history.specs.Rounds.{Serves, ServesLines};
ghost use Rattle.call_history.specs.RingClosing.{IsServed, IsUnserved, TakesPrefix, SameEnd, SameEnds, IsLowestUnserved};

use crate::gathering::Numbered;
use crate::journal::Journal;
use crate::object::Object;
use crate::port::Port;
use crate::ring_line::LineEnd;

/// Whether no call of a line is waiting. This thread now has both ends of each ring, so it can compare them. Only the
/// contract uses the journal, for its history.
fn compare<O: Object>(
    journal: &Journal<O>,
    port: &mut Port<O::Call, O::Reply>,
    end: &mut LineEnd<O>,
) -> bool
    requires rings { IsPortOf port.old end.old }
    requires serves { Serves (part end.old.number journal.now.history) port.old }
    ensures port { SamePort port.old port.new }
    ensures serves { Serves (part end.old.number journal.now.history) port.new }
    ensures end { SameEnd end.old end.new }
    ensures calls { MatchBool result (IsServed journal.now.history end.new) (IsUnserved journal.now.history end.new) }
    ensures replies { TakesPrefix journal.now.history end.new }
{
    let line = &mut end.line;
    let waiting = port.calls.slots_beside(&mut line.calls);
    line.replies.slots_beside(&mut port.replies);
    waiting == 0 && port.kept.is_none()
}

/// The lower of the two numbers, or `number` if there is no lowest one yet.
fn lower(lowest: Option<u32>, number: u32) -> u32
    ensures { MatchOption lowest (result ≡ number) (λ n. result ≡ min n number) }
{
    match lowest {
        Some(n) => n.min(number),
        None => number,
    }
}

/// Compares all ends with the desk's ends. Returns the lowest number of a line that has posted more calls than the desk
/// served.
pub(crate) fn lowest_unserved<O: Object>(
    journal: &Journal<O>,
    ports: &mut Vec<Port<O::Call, O::Reply>>,
    ends: &mut Vec<LineEnd<O>>,
) -> Option<u32>
    requires serves { ServesLines journal.now.history ports.old.items }
    requires lines { AreEndsOf ports.old.items ends.old.items }
    ensures serves { ServesLines journal.now.history ports.new.items }
    ensures ports { SamePorts ports.old.items ports.new.items }
    ensures ends { SameEnds ends.old.items ends.new.items }
    ensures lines { AreEndsOf ports.new.items ends.new.items }
    ensures replies { All (TakesPrefix journal.now.history) ends.new.items }
    ensures calls { MatchOption result
        (All (IsServed journal.now.history) ends.new.items)
        (λ number. IsLowestUnserved journal.now.history ends.new.items (length ends.new.items) number) }
{
    let mut lowest = None;
    for k in 0..ends.len() {
        let end = &mut ends[k];
        let number = end.number();
        let port = &mut ports[number as usize];
        let is_served = compare(journal, port, end);
        if !is_served {
            lowest = Some(lower(lowest, number));
        }
    }
    lowest
}

/// Stores how many calls each line made, by the line's number. Only the contract uses the journal, for its history.
pub(crate) fn note_made<O: Object>(
    journal: &Journal<O>,
    made_by_line: &mut Vec<u64>,
    ends: &Vec<LineEnd<O>>,
)
    requires served { All (IsServed journal.now.history) ends.now.items }
    requires numbers { All (λ e. e.number < length made_by_line.old.items) ends.now.items }
    ensures count { length made_by_line.new.items ≡ length made_by_line.old.items }
    ensures made { (k : ℕ) (e : _) → k < length ends.now.items
        → slice_index_or made_by_line.new.items (slice_index_or ends.now.items k e).number 0
        ≡ length (part (slice_index_or ends.now.items k e).number journal.now.history) }
{
    for end in ends {
        made_by_line[end.number() as usize] = end.line.posted();
    }
}
