//! Sends INFO or ABORT to players, and prints their answers.
ghost use Rattle.std.specs.Prelude.{◌≡◌, ◌≢◌, ◌⊎◌, ◌↔◌, ℕ, List, false, true, Err, IfErr, IfOk, OnOk, string_bytes};
ghost use Rattle.std.specs.Io.KnownBytes.{Appends};
ghost use Rattle.desk_calls.specs.Names.{is_name};
ghost use Rattle.match_messages.specs.InfoReading.{info_reading};
ghost use Rattle.whole_streams.specs.Streams.{AppendsPart};
ghost use Rattle.player_commands.specs.Lines.{InfoFails, TellsAnswers, TellsUnanswered, abort_line, abort_text, aborted_lines, info_line, info_word, shortage_word, unanswered_line, verdict_line};
ghost use Rattle.player_commands.specs.declared.fault.CommandFault.TheVariants.{BadId, Memory, NoAnswer, WriteFault};

use crate::fault::{CommandFault, contact_fault};
use crate::reasons::Reasons;
use command_line::{AbortPlan, InfoPlan};
use desk_calls::{Owed, is_name};
use game_core::{Counted, Text, Texts};
use match_messages::{Brief, Info, info_message, message, read_info};
use match_plans::{PlayerAddress, Shortage};
use network_players::{Resolves, contact};
use std::alloc::{AllocError, Global};
use std::io::Write;
use std::time::Clock;
use whole_streams::write_all;

/// The time that a player has for an answer, in seconds.
const SECONDS: u32 = 10;

/// Sends a message to a player and returns its answer. If there is no answer, reports why.
fn answer_to<N: Resolves + Clock, E: Write>(
    rt: &N,
    alloc: Global,
    player: &PlayerAddress<'_>,
    message: &[u8],
    reasons: &mut Reasons<E>,
) -> Result<Text, CommandFault>
    ensures { IfErr result (λ fault. fault ≢ BadId) }
{
    match contact(rt, alloc, player, SECONDS, message) {
        Ok(answer) => Ok(answer),
        Err(fault) => {
            reasons.report(player, fault);
            Err(contact_fault(fault))
        }
    }
}

fn info_word(info: Info) -> &'static str
    ensures { result.now ≡ info_word info }
{
    match info {
        Info::Available => "available",
        Info::Ready => "ready",
        Info::Busy => "busy",
        Info::Unknown => "unknown",
    }
}

/// The line with a JSON object that contains the name of a player and this verdict.
fn verdict_line(alloc: Global, name: &str, verdict: &str) -> Result<String, AllocError>
    ensures { IfOk result (λ line. string_bytes line ≡ verdict_line name.now verdict.now) }
{
    format!(in alloc; "{{\"player\":\"{name}\",\"verdict\":\"{verdict}\"}}\n")
}

fn info_line(alloc: Global, is_json: bool, name: &str, info: Info) -> Result<String, AllocError>
    ensures { IfOk result (λ line. string_bytes line ≡ info_line is_json name.now info) }
{
    let word = info_word(info);
    if is_json {
        verdict_line(alloc, name, word)
    } else {
        format!(in alloc; "{word}\n")
    }
}

/// The word for the resource that the referee lacked.
fn shortage_word(shortage: Shortage) -> &'static str
    ensures { result.now ≡ shortage_word shortage }
{
    match shortage {
        Shortage::Descriptors => "descriptors",
        Shortage::Ports => "ports",
        Shortage::Memory => "memory",
        Shortage::Clock => "clock",
        Shortage::Resolver => "resolver",
        Shortage::Network => "network",
        Shortage::Processor => "processor",
    }
}

/// The line with the JSON object for a player that gave no answer or got no message.
fn unanswered_line(alloc: Global, name: &str, fault: CommandFault) -> Result<String, AllocError>
    ensures { IfOk result (λ line. string_bytes line ≡ unanswered_line name.now fault) }
{
    match fault {
        CommandFault::NoAnswer => verdict_line(alloc, name, "no_answer"),
        CommandFault::NotSent(shortage) => {
            let lacks = shortage_word(shortage);
            format!(in alloc;
                "{{\"player\":\"{name}\",\"verdict\":\"not_sent\",\"lacks\":\"{lacks}\"}}\n"
            )
        }
        _ => String::from_str(alloc, ""),
    }
}

fn write_unanswered<W: Write>(
    alloc: Global,
    name: &str,
    fault: CommandFault,
    writer: &mut Counted<W>,
) -> Result<(), CommandFault>
    ensures told { OnOk result (TellsUnanswered W.contents true name.now fault writer.old writer.new) }
    ensures at_fault { IfErr result (λ given. ((given ≡ Memory) × (writer.new ≡ writer.old))
        ⊎ ((given ≡ WriteFault) × AppendsPart (W.contents writer.old.stream) (W.contents writer.new.stream) (unanswered_line name.now fault))) }
{
    match fault {
        CommandFault::NoAnswer | CommandFault::NotSent(_) => {
            let line = unanswered_line(alloc, name, fault)?;
            Ok(write_all(writer, line.as_bytes())?)
        }
        _ => Ok(()),
    }
}

/// Asks a player whether it is available, and prints its answer. If the output is JSON, also prints that there is no answer.
pub fn info<N: Resolves + Clock, W: Write, E: Write + Drop>(
    rt: &N,
    alloc: Global,
    plan: &InfoPlan<'_>,
    writer: &mut Counted<W>,
    reasons: Reasons<E>,
) -> Result<(), CommandFault>
    ensures written { OnOk result ((answer : List ℕ) × Appends (W.contents writer.old.stream) (W.contents writer.new.stream) (info_line plan.now.is_json plan.now.player.name.now (info_reading answer))) }
    ensures at_fault { IfErr result (λ fault. InfoFails W.contents plan.now.is_json plan.now.player.name.now fault writer.old writer.new) }
{
    let mut reasons = reasons;
    let name = plan.player.name;
    match answer_to(rt, alloc, &plan.player, &info_message(), &mut reasons) {
        Ok(answer) => {
            let info = read_info(alloc, answer.as_slice())?;
            let line = info_line(alloc, plan.is_json, name, info)?;
            Ok(write_all(writer, line.as_bytes())?)
        }
        Err(fault) => {
            if plan.is_json {
                write_unanswered(alloc, name, fault, writer)?;
            }
            Err(fault)
        }
    }
}

fn abort_message(alloc: Global, id: &str) -> Result<Text, AllocError>
    ensures { IfOk result (λ text. text ≡ abort_text id.now) }
{
    let mut roles = Vec::with_capacity(alloc, 1)?;
    roles.push(Text::from_slice(alloc, b"role")?)?;
    let brief = Brief {
        id: Text::from_slice(alloc, id.as_bytes())?,
        roles: Texts { items: roles },
        rules: Vec::new(alloc),
        start: 1,
        play: 1,
    };
    message(alloc, &brief, 0, &Owed::Abort)
}

/// The output for a player that got ABORT.
fn abort_line(
    alloc: Global,
    is_json: bool,
    name: &str,
    is_answered: bool,
) -> Result<String, AllocError>
    ensures { IfOk result (λ line. string_bytes line ≡ abort_line is_json name.now is_answered) }
{
    match (is_json, is_answered) {
        (false, true) => format!(in alloc; "{name} aborted\n"),
        (false, false) => format!(in alloc; "{name} no answer\n"),
        (true, true) => verdict_line(alloc, name, "aborted"),
        (true, false) => verdict_line(alloc, name, "no_answer"),
    }
}

/// Sends ABORT to a player. Returns whether it answered.
fn has_answered<N: Resolves + Clock, E: Write>(
    rt: &N,
    alloc: Global,
    player: &PlayerAddress<'_>,
    message: &Text,
    reasons: &mut Reasons<E>,
) -> Result<bool, CommandFault>
    ensures { IfErr result (λ fault. (fault ≢ NoAnswer) × (fault ≢ BadId)) }
{
    match answer_to(rt, alloc, player, message.as_slice(), reasons) {
        Ok(_) => Ok(true),
        Err(CommandFault::NoAnswer) => Ok(false),
        Err(fault) => Err(fault),
    }
}

fn write_abort<W: Write>(
    alloc: Global,
    is_json: bool,
    name: &str,
    is_answered: bool,
    writer: &mut Counted<W>,
) -> Result<(), CommandFault>
    ensures told { OnOk result (Appends (W.contents writer.old.stream) (W.contents writer.new.stream) (abort_line is_json name.now is_answered)) }
    ensures others { IfErr result (λ fault. (fault ≢ NoAnswer) × (fault ≢ BadId)) }
{
    let line = abort_line(alloc, is_json, name, is_answered)?;
    Ok(write_all(writer, line.as_bytes())?)
}

/// Sends ABORT to the players of a match, one after another, and prints for each player whether it answered. If the
/// referee lacks a resource for a player, prints this only if the output is JSON, and continues with the next player.
pub fn abort<N: Resolves + Clock, W: Write, E: Write + Drop>(
    rt: &N,
    alloc: Global,
    plan: &AbortPlan<'_>,
    writer: &mut Counted<W>,
    reasons: Reasons<E>,
) -> Result<(), CommandFault>
    ensures bad_id { (result ≡ Err BadId) ↔ (is_name plan.now.id.now ≡ false) }
    ensures all { OnOk result (Appends (W.contents writer.old.stream) (W.contents writer.new.stream) (aborted_lines plan.now.is_json plan.now.players.items)) }
    ensures some { result ≡ Err NoAnswer → TellsAnswers plan.now.is_json plan.now.players.items false (W.contents writer.old.stream) (W.contents writer.new.stream) }
{
    if !is_name(plan.id.as_bytes()) {
        return Err(CommandFault::BadId);
    }
    let message = abort_message(alloc, plan.id)?;
    let mut reasons = reasons;
    let mut have_answered = true;
    let mut short = None;
    for player in &plan.players {
        let is_answered = match has_answered(rt, alloc, player, &message, &mut reasons) {
            Ok(is_answered) => is_answered,
            Err(fault) => {
                let CommandFault::NotSent(shortage) = fault else {
                    return Err(fault);
                };
                if plan.is_json {
                    write_unanswered(alloc, player.name, fault, writer)?;
                }
                short = Some(shortage);
                continue;
            }
        };
        write_abort(alloc, plan.is_json, player.name, is_answered, writer)?;
        have_answered = have_answered && is_answered;
    }
    match short {
        Some(shortage) => Err(CommandFault::NotSent(shortage)),
        None if have_answered => Ok(()),
        None => Err(CommandFault::NoAnswer),
    }
}
