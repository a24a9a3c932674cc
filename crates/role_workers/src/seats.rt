//! Attends roles of matches, each role over its wire in a separate thread.
ghost use Rattle.std.specs.Prelude.{◌≡◌, ◌<◌, ◌≤◌, ℕ, [], ◌∷◌, Some, length, map, min, slice_get, IfOk, OnOk};
ghost use Rattle.role_workers.specs.Attendances.{IsAttended};
ghost use Rattle.role_workers.specs.Seats.{AreSeatsOf, IsLeftOf, AreLeftBy};
ghost use Rattle.role_workers.specs.Internal.Promises.{IsKept, ArePromisedFor};
ghost use Rattle.role_workers.specs.RoleCalls.{due_round};
ghost use Rattle.role_workers.specs.Internal.GivenUp.{AreGivenUp};
ghost use denote.Param.Send.{IsSend};

use crate::attend_fault::AttendFault;
use crate::attending::{answer_call, attend_shared};
use crate::seat::{Attended, Seat};
use crate::shared_desk::{DeskBrand, SharedDesk};
use call_history::{Bell, Object, Wire};
use desk_calls::{Answer, Call, Due, Reply};
use match_messages::{Player, SharedBrief};
use std::alloc::{AllocError, Global};
use std::snapshot::Snapshot;
use std::sync::Wait;
use std::thread;
use std::thread::{Promise, PromisedHandle, Scope, Threads};

/// The guarantee of a seat's thread about its result.
#[derive(Drop)]
struct LeftBy<'a, P, W> {
    seat: Snapshot<Seat<'a, P, W>>,
    tries: u64,
}

impl<'a, P: Player, W: Wire<Call = Call, Reply = Reply>> Promise<Attended<P, W>>
    for LeftBy<'a, P, W> {
    ghost use Rattle.role_workers.specs.Seats.{IsLeftOf};

    ghost kept_by = { λ p left. IsLeftOf W.Wire P.Player p.tries p.seat.value left };
}

/// A role without a thread, with the data of its match.
#[derive(Clone, Copy)]
struct Unattended<'a> {
    brief: &'a SharedBrief<'a>,
    role: usize,
}

/// Makes a seat for each role of the match, from the roles, the wires and the players in order.
pub fn seat_players<'a, P: Drop, W: Drop>(
    alloc: Global,
    brief: &'a SharedBrief<'a>,
    wires: Vec<W>,
    players: Vec<P>,
) -> Result<Vec<Seat<'a, P, W>>, AllocError>
    ensures count { IfOk result (λ seats. length seats.items ≡ min (length brief.now.roles) (min (length wires.items) (length players.items))) }
    ensures seats { IfOk result (λ seats. AreSeatsOf brief.now players.items wires.items seats.items) }
{
    let mut seats = Vec::with_capacity(alloc, players.len())?;
    let mut wires = wires.into_iter();
    let mut players = players.into_iter();
    for role in 0..brief.role_count() {
        let Some(wire) = wires.next() else {
            return Ok(seats);
        };
        let Some(player) = players.next() else {
            return Ok(seats);
        };
        seats.push(Seat {
            brief,
            role,
            player,
            wire,
        })?;
    }
    Ok(seats)
}

/// Attends the role of a seat over its wire, and then signals that it has ended. If memory runs out, the thread stops
/// the desk: the match cannot end without this role, and the other workers would keep asking until the history is full.
fn attend_seat<P: Player + Drop, W: Wire<Call = Call, Reply = Reply>>(
    alloc: Global,
    seat: Seat<'_, P, W>,
    tries: u64,
    bell: &Bell,
) -> Attended<P, W>
    ensures { IsLeftOf W.Wire P.Player tries seat.entry result }
{
    let Seat {
        brief,
        role,
        mut player,
        mut wire,
    } = seat;
    let end = attend_shared(alloc, &mut wire, &mut player, brief, role, tries);
    if let Err(AttendFault::Memory) = end {
        bell.stop();
    }
    player.leave();
    bell.leave();
    Attended { wire, end, player }
}

fn roles_of<'a, P, W>(
    alloc: Global,
    seats: &[Seat<'a, P, W>],
) -> Result<Vec<Unattended<'a>>, AllocError>
    ensures count { IfOk result (λ roles. length roles.items ≡ length seats.entry.now) }
    ensures roles { IfOk result (λ roles. roles.items ≡ map (λ s. record { brief = s.brief; role = s.role }) seats.entry.now) }
{
    let mut roles = Vec::with_capacity(alloc, seats.len())?;
    for seat in seats {
        roles.push(Unattended {
            brief: seat.brief,
            role: seat.role,
        })?;
    }
    Ok(roles)
}

fn due_round(reply: &Reply) -> Option<u64>
    ensures { result ≡ due_round reply.now }
{
    match reply {
        Reply::Due(Due::Owe { round, .. }) => Some(*round),
        _ => None,
    }
}

/// Gives up a role: aborts its match and, if the desk owes the role a message, reports a broken connection as the
/// answer.
fn give_up<W: Wire<Call = Call, Reply = Reply>>(
    alloc: Global,
    own: &mut W,
    unattended: Unattended<'_>,
) -> Result<(), AttendFault>
    ensures { OnOk result (AreGivenUp W.Wire (unattended.entry ∷ []) own.old own.new) }
{
    let Unattended { brief, role } = unattended;
    let id = brief.copy_id(alloc)?;
    own.ask(Call::Abort { id })?;
    let id = brief.copy_id(alloc)?;
    let due = own.ask(Call::Next { id, role })?;
    let Some(round) = due_round(&due) else {
        return Ok(());
    };
    let call = answer_call(alloc, brief, role, round, Answer::Broken)?;
    own.ask(call)?;
    Ok(())
}

/// Gives up these roles. This ends the match, so that the threads of the other roles end too.
fn give_up_all<W: Wire<Call = Call, Reply = Reply>>(
    alloc: Global,
    own: &mut W,
    roles: &[Unattended<'_>],
) -> Result<(), AttendFault>
    ensures { OnOk result (AreGivenUp W.Wire roles.now own.old own.new) }
{
    for unattended in roles {
        give_up(alloc, own, *unattended)?;
    }
    Ok(())
}

/// Joins the threads of the seats, and adds their results to `attended`, which is empty and has enough capacity.
fn join_seats<'a, P: Player + Drop, W: Wire<Call = Call, Reply = Reply> + Drop, R: Threads>(
    rt: &R,
    handles: Vec<PromisedHandle<Attended<P, W>, LeftBy<'a, P, W>>>,
    attended: Vec<Attended<P, W>>,
) -> Result<Vec<Attended<P, W>>, AllocError>
    requires { attended.items ≡ [] }
    ensures count { IfOk result (λ all. length all.items ≡ length handles.entry.items) }
    ensures kept { IfOk result (λ all. (k : ℕ) (left : _) → slice_get all.items k ≡ Some left → IsKept W.Wire P.Player handles.entry.items k left) }
{
    let mut attended = attended;
    for handle in handles {
        attended.push(handle.join(rt))?;
    }
    Ok(attended)
}

/// For each seat, in order, starts a thread that attends the seat in at most `tries` tries. Stops at the first thread
/// that cannot be created.
fn start_seats<'s, 'a: 's, E, P, W>(
    alloc: Global,
    scope: &'s Scope<'s, E>,
    seats: Vec<Seat<'a, P, W>>,
    tries: u64,
    bell: &'a Bell,
) -> Result<Vec<PromisedHandle<Attended<P, W>, LeftBy<'a, P, W>>>, AllocError>
where
    P: Player + Drop + Send + 's,
    W: Wire<Call = Call, Reply = Reply> + Drop + Send + 's,
    ensures count { IfOk result (λ handles. length handles.items ≤ length seats.entry.items) }
    ensures promised { IfOk result (λ handles. ArePromisedFor tries seats.entry.items handles.items) }
{
    let mut handles = Vec::with_capacity(alloc, seats.len())?;
    for seat in seats {
        let promise = LeftBy {
            seat: Snapshot::of(&seat),
            tries,
        };
        let Seat {
            brief,
            role,
            player,
            wire,
        } = seat;
        let work = move || -> Attended<P, W>
            requires { role < length brief.now.roles }
            ensures { IsAttended W.Wire P.Player brief.entry.now role tries player result.player wire result.wire result.end }
        {
            let seat = Seat {
                brief,
                role,
                player,
                wire,
            };
            attend_seat(alloc, seat, tries, bell)
        };
        let Ok(handle) = scope.spawn_with(promise, work) else {
            break;
        };
        handles.push(handle)?;
    }
    Ok(handles)
}

/// Ends the running threads when a thread could not be created: gives up the other roles over the calling thread's
/// wire, and joins the running threads. Drops their results.
fn end_seats<O, N, W, P, R>(
    rt: &R,
    alloc: Global,
    desk: &SharedDesk<O, N>,
    own: &mut W,
    others: &[Unattended<'_>],
    handles: Vec<PromisedHandle<Attended<P, W>, LeftBy<'_, P, W>>>,
) -> Result<(), AttendFault>
where
    O: Object<Call = Call, Reply = Reply> + Drop,
    N: DeskBrand<O>,
    W: Wire<Call = Call, Reply = Reply> + Drop,
    P: Player + Drop,
    R: Threads + Wait,
    ensures { OnOk result (AreGivenUp W.Wire others.now own.old own.new) }
{
    let given_up = give_up_all(alloc, own, others);
    if let Err(fault) = given_up {
        // If giving up fails, the match never ends. So this stops the other workers.
        desk.stop(fault);
    }
    desk.serve_until(rt, handles.len() as u64);
    for handle in handles {
        let _ = handle.join(rt);
    }
    given_up
}

/// Attends each seat in a separate thread, in at most `tries` tries. The calling thread also serves the desk until all
/// these threads have ended. Returns the calling thread's wire and the results, in the order of the seats.
///
/// If a thread cannot be created, this starts no more threads. A match waits for all its roles, so this then aborts the
/// matches of the remaining seats over the calling thread's wire. When the running threads have ended, this returns an
/// out-of-memory error.
pub fn attend_all<O, N, W, P, R>(
    rt: &R,
    alloc: Global,
    desk: &SharedDesk<O, N>,
    own: W,
    seats: Vec<Seat<'_, P, W>>,
    tries: u64,
) -> Result<(W, Vec<Attended<P, W>>), AllocError>
where
    O: Object<Call = Call, Reply = Reply> + Drop,
    N: DeskBrand<O>,
    W: Wire<Call = Call, Reply = Reply> + Drop + Send,
    P: Player + Drop + Send,
    R: Threads + Wait + Sync,
    ensures own { IfOk result (λ a. a.0 ≡ own) }
    ensures count { IfOk result (λ a. length a.1.items ≡ length seats.entry.items) }
    ensures left { IfOk result (λ a. AreLeftBy W.Wire P.Player tries seats.entry.items a.1.items) }
{
    thread::scope(
        thread::scope_env(),
        rt,
        move |scope| -> Result<(W, Vec<Attended<P, W>>), AllocError>
            requires sent { IsSend W.row × IsSend P.row }
            ensures own { IfOk result (λ a. a.0 ≡ own) }
            ensures count { IfOk result (λ a. length a.1.items ≡ length seats.entry.items) }
            ensures left { IfOk result (λ a. AreLeftBy W.Wire P.Player tries seats.entry.items a.1.items) }
        {
            let count = seats.len();
            let roles = roles_of(alloc, seats.as_slice())?;
            let attended = Vec::with_capacity(alloc, count)?;
            let handles = start_seats(alloc, scope, seats, tries, desk.bell())?;
            let started = handles.len();
            if started < count {
                let mut own = own;
                let _ = end_seats(rt, alloc, desk, &mut own, &roles[started..], handles);
                return Err(AllocError);
            }
            desk.serve_until(rt, started as u64);
            let attended = join_seats(rt, handles, attended)?;
            Ok((own, attended))
        },
    )
}
