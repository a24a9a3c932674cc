//! Laws about legal histories and the limits of a desk. Each law is a function that does nothing.
//!
//! The definitions read a history from its front. Two laws give the values of these definitions for a history with one
//! more entry at its end. By induction, they determine the values for each history. One law states that the constants are
//! the limits of the definitions.
//!
//! The laws on rings state that serving, posting and taking do not change which lines belong to a desk. A caller that keeps
//! the lines can therefore close the desk with their ends. These laws have no arguments, because they relate values
//! from before and after such calls: name the type of the desk's object when you call them.
ghost use Rattle.std.specs.Prelude.{◌≡◌, ◌↔◌, [], ◌∷◌, ◌++◌};
ghost use Rattle.call_history.specs.History.{run, IsLegalHistory};
ghost use Rattle.call_history.specs.Limits.{max_entries, max_lines, max_room};
ghost use Rattle.call_history.specs.RingLaws.{LinesStay, EndsStay, NewLinesStay, NewLinesAreLines, NumbersAreOfEnds, PortsAreSame, PortsStaySame};

use crate::journal::{Entry, MAX_ENTRIES};
use crate::lock::MAX_LINES;
use crate::object::Object;
use crate::ring_opening::MAX_ROOM;

/// The run of a history with one more entry is the value after the last call.
pub fn run_with_one_more<O: Object>(
    object: &O,
    history: &[Entry<O::Call, O::Reply>],
    last: &Entry<O::Call, O::Reply>,
)
    ensures { run O.after object.now (history.now ++ last.now ∷ [])
        ≡ O.after (run O.after object.now history.now) last.now.call }
{}

/// A history with one more entry is legal if and only if it was legal before, and the last reply is the object's reply at
/// that point.
pub fn legal_with_one_more<O: Object>(
    object: &O,
    history: &[Entry<O::Call, O::Reply>],
    last: &Entry<O::Call, O::Reply>,
)
    ensures { IsLegalHistory O.reply O.after object.now (history.now ++ last.now ∷ [])
        ↔ (IsLegalHistory O.reply O.after object.now history.now
        × (last.now.reply ≡ O.reply (run O.after object.now history.now) last.now.call)) }
{}

/// `MAX_ENTRIES` is the limit on the entries of a history, `MAX_LINES` on the lines of a desk, and `MAX_ROOM` on the slots of
/// a ring.
pub fn constants_are_the_limits()
    ensures entries { MAX_ENTRIES ≡ max_entries }
    ensures lines { MAX_LINES ≡ max_lines }
    ensures room { MAX_ROOM ≡ max_room }
{}

/// Serving, posting and taking do not change which lines belong to a desk over rings. The same holds for
/// their ends.
pub fn lines_stay<O: Object>()
    ensures lines { LinesStay O.Call O.Reply }
    ensures ends { EndsStay O.Call O.Reply }
{}

/// A new line of a desk over rings is a line of the desk, and stays new while the desk serves.
pub fn new_lines_are_lines<O: Object>()
    ensures lines { NewLinesAreLines O.Call O.Reply }
    ensures stay { NewLinesStay O.Call O.Reply }
{}

/// A desk over rings has the same lines before and after any number of rounds.
pub fn desks_stay<O: Object>()
    ensures same { PortsAreSame O.Call O.Reply }
    ensures through { PortsStaySame O.Call O.Reply }
{}

/// If a list of ends contains a number, one of these ends has this number.
pub fn numbers_are_of_ends<O: Object>()
    ensures { NumbersAreOfEnds O.Call O.Reply }
{}
