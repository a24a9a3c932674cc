//! Finishes the lines of the attended roles.
ghost use Rattle.std.specs.Prelude.{◌≡◌, [], OnOk, map};
ghost use Rattle.role_workers.specs.RoleLines.{IsFinishedOf, AreFinishedOf};

use crate::attend_fault::AttendFault;
use crate::seat::Attended;
use crate::served_wire::ServedWire;
use crate::shared_desk::DeskBrand;
use call_history::{LineEnd, Object, RingLine};
use desk_calls::{Call, Reply};
use std::alloc::AllocError;

/// How many calls, and how many replies, can wait on a line.
pub const ROOM: u64 = 2;

/// Closes a line for further calls, and takes the replies that still wait.
pub fn finish_line<O: Object>(line: RingLine<O>) -> LineEnd<O>
    ensures { IsFinishedOf line result }
{
    let mut end = line.finish();
    for _ in 0..ROOM {
        end.take();
    }
    end
}

/// Finishes the lines of the attended roles. Adds the lines, the results of attending, and the players to the given
/// lists, in the order of the roles. The lists are empty, and the caller has allocated their memory.
pub fn finish_all<O, N, P>(
    attended: Vec<Attended<P, ServedWire<'_, O, N>>>,
    lines: &mut Vec<LineEnd<O>>,
    ends: &mut Vec<Result<u64, AttendFault>>,
    players: &mut Vec<P>,
) -> Result<(), AllocError>
where
    O: Object<Call = Call, Reply = Reply> + Drop,
    N: DeskBrand<O>,
    P: Drop,
    requires no_lines { lines.old.items ≡ [] }
    requires no_ends { ends.old.items ≡ [] }
    requires no_players { players.old.items ≡ [] }
    ensures lines { OnOk result (AreFinishedOf (map (λ a. a.wire.line) attended.entry.items) lines.new.items) }
    ensures ends { OnOk result (ends.new.items ≡ map (λ a. a.end) attended.entry.items) }
    ensures players { OnOk result (players.new.items ≡ map (λ a. a.player) attended.entry.items) }
{
    for Attended { wire, end, player } in attended {
        lines.push(finish_line(wire.end()))?;
        ends.push(end)?;
        players.push(player)?;
    }
    Ok(())
}
