//! Attends one role of a match.
ghost use Rattle.std.specs.Prelude.{◌≡◌, ◌<◌, [], ◌∷◌, length, List, None, IfOk, IfErr, OnOk};
ghost use Rattle.call_history.specs.Told.{told_with};
ghost use Rattle.desk_calls.specs.declared.answer.Answer.{Answer};
ghost use Rattle.desk_calls.specs.declared.call.Reply.{Reply};
ghost use Rattle.desk_calls.specs.declared.call.Call.TheVariants.{Next};
ghost use Rattle.desk_calls.specs.declared.call.Reply.TheVariants.{Due as IsDue};
ghost use Rattle.match_messages.specs.BriefValue.{brief_value};
ghost use Rattle.match_messages.specs.Handing.{seconds_for};
ghost use Rattle.role_workers.specs.Events.{Event, telling, Tells};
ghost use Rattle.role_workers.specs.AttendFaults.{next_fault, answer_fault};
ghost use Rattle.role_workers.specs.Steps.{answer_call, handing_over};
ghost use Rattle.role_workers.specs.Attending.{StopsAmid, CallStops};
ghost use Rattle.role_workers.specs.Attendances.{IsAttended};

use crate::attend_fault::AttendFault;
use call_history::Wire;
use desk_calls::{Answer, Call, Due, Owed, Refusal, Reply};
use match_messages::{Brief, Player, SharedBrief, shared_message};
use std::alloc::{AllocError, Global};

/// Asks the desk what it owes to the role.
fn next_due<W: Wire<Call = Call, Reply = Reply>>(
    alloc: Global,
    wire: &mut W,
    brief: &SharedBrief<'_>,
    role: usize,
) -> Result<Due, AttendFault>
    ensures line { W.same_line wire.old wire.new }
    ensures call { OnOk result (W.calls wire.new ≡ told_with (W.calls wire.old) (Next brief.now.id role ∷ [])) }
    ensures reply { IfOk result (λ due. W.replies wire.new ≡ told_with (W.replies wire.old) (IsDue due ∷ [])) }
    ensures fault { IfErr result (λ fault. CallStops (Next brief.now.id role) next_fault fault
        (W.calls wire.old) (W.calls wire.new) (W.replies wire.old) (W.replies wire.new)) }
{
    let id = brief.copy_id(alloc)?;
    match wire.ask(Call::Next { id, role })? {
        Reply::Due(due) => Ok(due),
        Reply::Refused(refusal) => Err(AttendFault::Refused(refusal)),
        _ => Err(AttendFault::Stalled),
    }
}

/// The call that gives the desk a player's answer for a round.
pub(crate) fn answer_call(
    alloc: Global,
    brief: &SharedBrief<'_>,
    role: usize,
    round: u64,
    answer: Answer,
) -> Result<Call, AllocError>
    ensures { IfOk result (λ call. call ≡ answer_call brief.now.id role round answer) }
{
    let id = brief.copy_id(alloc)?;
    Ok(match answer {
        Answer::Text(text) => Call::Submit {
            id,
            role,
            round,
            text,
        },
        Answer::Silent => Call::Miss {
            id,
            role,
            round,
            broken: false,
        },
        Answer::Broken => Call::Miss {
            id,
            role,
            round,
            broken: true,
        },
    })
}

/// The error that stops a worker after this reply to its player's answer, if any. A worker ignores the refusal of an
/// answer that is late, repeated, or after the end.
fn answer_fault(reply: &Reply) -> Option<AttendFault>
    ensures { result ≡ answer_fault reply.now }
{
    match reply {
        Reply::Taken | Reply::Refused(Refusal::Stale(_) | Refusal::Twice | Refusal::Over) => None,
        Reply::Refused(refusal) => Some(AttendFault::Refused(*refusal)),
        _ => Some(AttendFault::Stalled),
    }
}

/// Gives the desk a player's answer.
fn give_back<W: Wire<Call = Call, Reply = Reply>>(
    alloc: Global,
    wire: &mut W,
    brief: &SharedBrief<'_>,
    role: usize,
    round: u64,
    answer: Answer,
) -> Result<(), AttendFault>
    ensures line { W.same_line wire.old wire.new }
    ensures call { OnOk result (W.calls wire.new ≡ told_with (W.calls wire.old) (answer_call brief.now.id role round answer ∷ [])) }
    ensures reply { OnOk result ((reply : Reply) × (answer_fault reply ≡ None)
        × (W.replies wire.new ≡ told_with (W.replies wire.old) (reply ∷ []))) }
    ensures fault { IfErr result (λ fault. CallStops (answer_call brief.now.id role round answer) answer_fault fault
        (W.calls wire.old) (W.calls wire.new) (W.replies wire.old) (W.replies wire.new)) }
{
    let call = answer_call(alloc, brief, role, round, answer)?;
    let reply = wire.ask(call)?;
    match answer_fault(&reply) {
        None => Ok(()),
        Some(fault) => Err(fault),
    }
}

/// The seconds that the player has to answer a message.
fn seconds_for(brief: &SharedBrief<'_>, owed: &Owed) -> u32
    ensures { result ≡ seconds_for brief.now owed.now }
{
    match owed {
        Owed::Start => brief.start,
        Owed::Play(_) | Owed::Stop(_) | Owed::Abort => brief.play,
    }
}

/// A message that the match owes to a role, and the round that the answer is for.
#[derive(Drop)]
struct OwedMessage {
    round: u64,
    owed: Owed,
}

/// Sends the player the owed message, and gives the desk the player's answer.
fn hand_over<W: Wire<Call = Call, Reply = Reply>, P: Player>(
    alloc: Global,
    wire: &mut W,
    player: &mut P,
    brief: &SharedBrief<'_>,
    role: usize,
    due: OwedMessage,
) -> Result<(), AttendFault>
    requires { role < length brief.now.roles }
    ensures line { W.same_line wire.old wire.new }
    ensures told { OnOk result ((answer : Answer) × (reply : Reply) × (answer_fault reply ≡ None)
        × Tells (telling (W.calls wire.old) (W.replies wire.old) (P.handed player.old))
        (telling (W.calls wire.new) (W.replies wire.new) (P.handed player.new))
        (handing_over brief.now role due.round due.owed answer reply)) }
    ensures fault { IfErr result (λ fault. (answer : Answer) × (reply : Reply) × (events : List Event)
        × StopsAmid (handing_over brief.now role due.round due.owed answer reply) (answer_fault reply) fault events
        × Tells (telling (W.calls wire.old) (W.replies wire.old) (P.handed player.old))
        (telling (W.calls wire.new) (W.replies wire.new) (P.handed player.new)) events) }
{
    let message = shared_message(alloc, brief, role, &due.owed)?;
    let answer = player.ask_shared(alloc, seconds_for(brief, &due.owed), &message)?;
    give_back(alloc, wire, brief, role, due.round, answer)
}

/// Attends one role of a match to its end, as `attend` does, with borrowed data.
pub fn attend_shared<W: Wire<Call = Call, Reply = Reply>, P: Player>(
    alloc: Global,
    wire: &mut W,
    player: &mut P,
    brief: &SharedBrief<'_>,
    role: usize,
    tries: u64,
) -> Result<u64, AttendFault>
    requires { role < length brief.now.roles }
    ensures { IsAttended W.Wire P.Player brief.now role tries player.old player.new wire.old wire.new result }
{
    let mut messages = 0;
    for _ in 0..tries {
        match next_due(alloc, wire, brief, role)? {
            Due::Owe { round, owed } => {
                hand_over(
                    alloc,
                    wire,
                    player,
                    brief,
                    role,
                    OwedMessage { round, owed },
                )?;
                messages += 1;
            }
            Due::Hold { .. } => player.rest(),
            Due::Over => return Ok(messages),
        }
    }
    Err(AttendFault::Stalled)
}

/// Attends one role of a match to its end: asks the desk what it owes to the role, sends each owed message to the
/// player once, and gives the desk the answer for its round. Returns the number of messages that it sent.
///
/// Each question to the desk uses up one try, even if the player must then wait. After the last try, this stops with
/// `Stalled`. An error does not undo earlier calls and messages.
pub fn attend<W: Wire<Call = Call, Reply = Reply>, P: Player>(
    alloc: Global,
    wire: &mut W,
    player: &mut P,
    brief: &Brief,
    role: usize,
    tries: u64,
) -> Result<u64, AttendFault>
    requires { role < length brief.now.roles }
    ensures { IsAttended W.Wire P.Player (brief_value brief.now) role tries player.old player.new wire.old wire.new result }
{
    attend_shared(alloc, wire, player, &brief.shared(), role, tries)
}
