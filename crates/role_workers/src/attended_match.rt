//! Attends the roles of a match, each role over one line of the match's desk.
ghost use Rattle.std.specs.Prelude.{◌≡◌, ◌+◌, Some, map, min, IfOk, length};
ghost use Rattle.call_history.specs.RingLines.{SamePorts, AreEndsOf, IsLineOf};
ghost use Rattle.role_workers.specs.RoleLines.{AreSeatLines, HasFinished, AreLeftLines};

use crate::attend_fault::AttendFault;
use crate::finishing::{finish_all, finish_line};
use crate::holder::DeskHolder;
use crate::seats::{attend_all, seat_players};
use crate::served_wire::ServedWire;
use crate::shared_desk::{DeskBrand, SharedDesk};
use call_history::laws::{lines_stay, new_lines_are_lines};
use call_history::{LineEnd, Object, RingDesk, RingLine};
use desk_calls::{Call, Reply};
use match_messages::{Player, SharedBrief};
use std::alloc::{AllocError, Global};
use std::sync::Wait;
use std::thread::Threads;

/// The plan for attending a match: the data of START, the players in the order of the roles, and the number of tries of
/// each worker. A worker uses up a try each time it asks what the match owes to its role.
#[derive(Drop)]
pub struct AttendancePlan<'r, P> {
    pub brief: SharedBrief<'r>,
    pub players: Vec<P>,
    pub tries: u64,
}

/// The result of attending all roles of a match: the desk, the ends of all lines, the result for each role, and the
/// players.
#[derive(Drop)]
pub struct AttendedMatch<O: Object, P> {
    pub desk: RingDesk<O>,
    pub lines: Vec<LineEnd<O>>,
    pub ends: Vec<Result<u64, AttendFault>>,
    pub players: Vec<P>,
}

fn wires_over<'a, O, N>(
    alloc: Global,
    lines: Vec<RingLine<O>>,
    desk: &'a SharedDesk<O, N>,
) -> Result<Vec<ServedWire<'a, O, N>>, AllocError>
where
    O: Object<Call = Call, Reply = Reply> + Drop,
    N: DeskBrand<O>,
    ensures { IfOk result (λ wires. map (λ w. w.line) wires.items ≡ lines.items) }
{
    let mut wires = Vec::with_capacity(alloc, lines.len())?;
    for line in lines {
        wires.push(ServedWire::new(line, desk))?;
    }
    Ok(wires)
}

/// Attends each role of a match over its line of the desk. A lock protects the desk while the workers run.
/// Afterwards, the lines post no more calls.
pub fn attend_match<N, O, P, R>(
    rt: &R,
    alloc: Global,
    holder: DeskHolder<O>,
    others: Vec<RingLine<O>>,
    plan: AttendancePlan<'_, P>,
) -> Result<AttendedMatch<O, P>, AllocError>
where
    N: DeskBrand<O> + Send + Sync,
    O: Object<Call = Call, Reply = Reply> + Drop + Send,
    P: Player + Drop + Send,
    R: Threads + Wait + Sync,
    requires named { N.desk ≡ Some holder.desk }
    requires zeroth { holder.line.number ≡ 0 }
    requires first { IsLineOf holder.desk.ports holder.line }
    requires seats { AreSeatLines holder.desk.ports others.items }
    requires ports { length holder.desk.ports ≡ length others.items + 1 }
    ensures ports { IfOk result (λ played. SamePorts holder.desk.ports played.desk.ports) }
    ensures opening { IfOk result (λ played. O.opening played.desk.journal.object ≡ O.opening holder.desk.journal.object) }
    ensures lines { IfOk result (λ played. AreEndsOf played.desk.ports played.lines.items) }
    ensures first { IfOk result (λ played. HasFinished holder.line played.lines.items) }
    ensures count { IfOk result (λ played. length played.ends.items ≡ min (length plan.entry.brief.roles) (min (length others.items) (length plan.entry.players.items))) }
    ensures ends { IfOk result (λ played. AreLeftLines P.handed plan.entry.brief plan.entry.tries plan.entry.players.items played.players.items played.lines.items played.ends.items) }
{
    lines_stay::<O>();
    new_lines_are_lines::<O>();
    let AttendancePlan {
        brief,
        players,
        tries,
    } = plan;
    // This allocates the memory for the results before the first thread starts.
    let count = others.len();
    let mut lines = Vec::with_capacity(alloc, count + 1)?;
    let mut ends = Vec::with_capacity(alloc, count)?;
    let mut left = Vec::with_capacity(alloc, count)?;
    let DeskHolder { desk, line } = holder;
    let shared: SharedDesk<O, N> = SharedDesk::new(desk);
    let wires = wires_over(alloc, others, &shared)?;
    let seats = seat_players(alloc, &brief, wires, players)?;
    let own = ServedWire::new(line, &shared);
    let (own, attended) = attend_all(rt, alloc, &shared, own, seats, tries)?;
    finish_all(attended, &mut lines, &mut ends, &mut left)?;
    lines.push(finish_line(own.end()))?;
    Ok(AttendedMatch {
        desk: shared.into_desk(),
        lines,
        ends,
        players: left,
    })
}
