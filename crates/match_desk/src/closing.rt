//! Closes a desk of matches after many threads have shared its manager, behind a lock or over rings.
ghost use Rattle.std.specs.Prelude.{◌≡◌, ◌<◌, ◌↔◌, ℕ, length, slice_index, IsOk, IfOk, IfErr, Contains};
ghost use Rattle.call_history.specs.Lines.{numbers, HasAll, IsLowestMissing};
ghost use Rattle.call_history.specs.RingLines.{AreEndsOf};
ghost use Rattle.call_history.specs.RingClosing.{IsClosed, IsCauseOf, HandsBack};
ghost use Rattle.match_desk.specs.Headline.{HasHeadline};

use crate::laws::match_laws;
use crate::manager::Manager;
use call_history::{
    CloseFault, Closed, LineEnd, LockDesk, LockLine, RingDesk, RingUnclosed, Unclosed,
};
use game_core::Game;
use std::sync::ledger::Ledger;

/// Closes a desk of matches behind a lock if all its lines are given.
///
/// One thread can replay the history of the closed desk: if a manager of the same games, without matches, gets these calls
/// one by one, it gives every stored reply and ends up equal to this manager. The history has as many calls as the lines made. Each
/// match is lawful, and its recorded joint moves were legal; `Match::state` guarantees that the match's state is the game's
/// state after these moves.
///
/// For each recorded move of a role that was not yet retired, the history took exactly one answer of the role, and the move
/// and its error are the judgement of this answer. The error is empty if and only if the answer named the move. The
/// history took no answer from a role that was already retired.
pub fn close_desk<G: Game, L: Ledger>(
    desk: LockDesk<Manager<G>, L>,
    lines: Vec<LockLine<L>>,
) -> Result<Closed<Manager<G>>, Unclosed<Manager<G>, L>>
    ensures all { IsOk result ↔ HasAll (numbers lines.items) desk.lines }

    ensures headline { IfOk result (λ c. HasHeadline G.rules desk.lines c.object c.history.items c.made_by_line.items) }
    ensures made { IfOk result (λ c. (k : ℕ) → k < desk.lines → Contains lines.items (record { number = k; made = slice_index c.made_by_line.items k })) }

    ensures missing { IfErr result (λ u. (n : ℕ) × (u.cause ≡ CloseFault.MissingLine n) × IsLowestMissing (numbers lines.items) desk.lines n) }
    ensures back { IfErr result (λ u. (u.desk ≡ desk) × (u.lines ≡ lines)) }
{
    match_laws::<G>();
    desk.close(lines)
}

/// Closes a desk of matches over rings if the ends of all its lines are given and all their calls were served.
///
/// Everything that `close_desk` guarantees for a desk behind a lock also holds for this desk. In addition, each line's part
/// of the history has exactly the calls that the line posted, and the replies that the line took are the first replies to
/// its calls. The laws of `call_history` state that the ends of a desk's lines stay ends of its lines.
pub fn close_rings<G: Game>(
    desk: RingDesk<Manager<G>>,
    ends: Vec<LineEnd<Manager<G>>>,
) -> Result<Closed<Manager<G>>, RingUnclosed<Manager<G>>>
    requires lines { AreEndsOf desk.ports ends.items }

    ensures headline { IfOk result (λ c. HasHeadline G.rules (length desk.ports) c.object c.history.items c.made_by_line.items) }
    ensures closed { IfOk result (λ c. IsClosed desk ends.items c.history.items c.object c.made_by_line.items) }

    ensures cause { IfErr result (λ u. IsCauseOf u.desk u.ends.items u.cause) }
    ensures back { IfErr result (λ u. HandsBack desk u.desk ends.items u.ends.items) }
{
    match_laws::<G>();
    desk.close(ends)
}
