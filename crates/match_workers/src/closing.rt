//! Closes the desk of a match.
ghost use Rattle.std.specs.Prelude.{◌≡◌, ◌<◌, None, IfOk, IfErr, length, All};
ghost use Rattle.call_history.specs.Lines.{HasAll};
ghost use Rattle.call_history.specs.RingLines.{AreEndsOf};
ghost use Rattle.call_history.specs.RingClosing.{end_numbers, HaveOwnCalls, HaveOwnReplies};
ghost use Rattle.match_desk.specs.Headline.{HasHeadline};
ghost use Rattle.match_workers.specs.Internal.Closings.{WasIdle};
ghost use Rattle.match_workers.specs.declared.refereeing.RefereeFault.TheVariants.{Unclosed as IsUnclosed};
ghost use Rattle.match_workers.specs.LineParts.{AreCounts};
ghost use Rattle.match_workers.specs.RefereeFaults.{reason_of};

use crate::refereeing::RefereeFault;
use call_history::laws::lines_stay;
use call_history::{Closed, LineEnd, RingDesk};
use game_core::Game;
use match_desk::{Manager, close_rings};

/// Serves the calls that are still waiting on the desk of a match, and closes the desk.
pub fn close_match<G: Game + Drop>(
    desk: RingDesk<Manager<G>>,
    lines: Vec<LineEnd<Manager<G>>>,
) -> Result<Closed<Manager<G>>, RefereeFault>
    requires lines { AreEndsOf desk.ports lines.items }
    ensures headline { IfOk result (λ c. HasHeadline G.rules (length desk.ports) c.object c.history.items c.made_by_line.items) }
    ensures games { IfOk result (λ c. c.object.games ≡ desk.journal.object.games) }
    ensures all { IfOk result (λ _. HasAll (end_numbers lines.items) (length desk.ports)) }
    ensures lines { IfOk result (λ c. All (λ e. e.line < length desk.ports) c.history.items) }
    ensures calls { IfOk result (λ c. HaveOwnCalls c.history.items lines.items) }
    ensures replies { IfOk result (λ c. HaveOwnReplies c.history.items lines.items) }
    ensures made { IfOk result (λ c. AreCounts c.history.items c.made_by_line.items) }

    ensures no_refusal { IfErr result (λ fault. reason_of fault ≡ None) }

    // This serves the waiting calls first. Otherwise a full history would be reported as a desk that was not closed.
    ensures unclosed { IfErr result (λ fault. fault ≡ IsUnclosed → WasIdle desk lines.items) }
{
    lines_stay::<Manager<G>>();
    let mut desk = desk;
    desk.serve_all()?;
    match close_rings(desk, lines) {
        Ok(closed) => Ok(closed),
        Err(_) => Err(RefereeFault::Unclosed),
    }
}
