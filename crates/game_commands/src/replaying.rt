//! Reads call logs and replays them.
ghost use Rattle.std.specs.Prelude.{◌≡◌, ◌≢◌, ◌≤◌, ◌+◌, ◌++◌, ◌∷◌, [], ℕ, false, List, length, IfOk, IfErr, IsErr, OnOk, string_bytes};
ghost use Rattle.std.specs.Io.KnownBytes.{Consumes, Appends};
ghost use Rattle.std.specs.Str.Lines.{lines};
ghost use Rattle.game_core.specs.Counting.{last_count};
ghost use Rattle.game_commands.specs.Replays.{accounts, begins_as_record, is_skipped, line_text, max_account, open_matches, refused_line, refused_output, replay_fault, replayed_line, replayed_text, AccountFails, AreReplayed, IsEnded, IsNumbered, IsRefusedAccount, IsReplayed, ReplayFails, StopsLongAccount};
ghost use Rattle.game_commands.specs.Whole.{ReadsAndWrites};

use crate::answers::push_records;
use crate::evidence::Evidence;
use command_faults::{Fault, MAX_LINE};
use desk_text::{ReplayFault, Replayed, replay};
use game_core::{Counted, Game, Lent};
use match_desk::Manager;
use std::alloc::{AllocError, Global};
use std::io::{Read, Write};
use std::mem;
use whole_streams::laws::lines_are_taken;
use whole_streams::{LineBuffer, NextLine, write_all};

/// The largest size of a call log, in bytes: 256 MiB. Each line end counts as two bytes.
const MAX_ACCOUNT: usize = 268_435_456;

/// The number of matches that are not over. If the last calls of the call log are missing, at least one match is not over.
fn open_matches<G: Game>(manager: &Manager<G>) -> usize
    ensures { result ≡ open_matches G.rules manager.now }
{
    let mut count = 0;
    for place in 0..manager.matches() {
        let held = manager.match_at(place).unwrap();
        if !held.status().phase.is_last() {
            count += 1;
        }
    }
    count
}

/// The output line for a replayed call log, with the number of calls and the number of matches that are not over. As
/// JSON, it also gives the number of all matches.
fn replayed_line(
    alloc: Global,
    is_json: bool,
    calls: u64,
    unended: usize,
    matches: usize,
) -> Result<String, AllocError>
    ensures { IfOk result (λ line. string_bytes line ≡ replayed_line is_json calls unended matches) }
{
    if is_json {
        return format!(in alloc;
            "{{\"verdict\":\"replayed\",\"calls\":{calls},\"not_ended\":{unended},\"records\":{matches}}}\n"
        );
    }
    match unended {
        0 => format!(in alloc; "replayed {calls} calls\n"),
        1 => format!(in alloc; "replayed {calls} calls, match not ended\n"),
        _ => format!(in alloc; "replayed {calls} calls, {unended} matches not ended\n"),
    }
}

fn replayed_text<G: Game + Drop>(
    alloc: Global,
    is_json: bool,
    replayed: &Replayed<G>,
) -> Result<Vec<u8>, AllocError>
    ensures { IfOk result (λ text. text.items ≡ replayed_text is_json G.rules replayed.now.manager replayed.now.calls) }
{
    let unended = open_matches(&replayed.manager);
    let matches = replayed.manager.matches();
    let line = replayed_line(alloc, is_json, replayed.calls, unended, matches)?;
    let mut text = line.into_bytes();
    push_records(alloc, &replayed.manager, &mut text)?;
    Ok(text)
}

fn refused_line(alloc: Global, verdict: &str, line: u64) -> Result<String, AllocError>
    ensures { IfOk result (λ text. string_bytes text ≡ refused_line verdict.now line) }
{
    format!(in alloc; "{{\"verdict\":\"{verdict}\",\"line\":{line}}}\n")
}

/// The output for a refused call log that follows `before` lines of other call logs. As JSON, it is the verdict; in
/// plain text, the correct line, if there is one.
fn refused_output(
    alloc: Global,
    is_json: bool,
    before: u64,
    fault: &ReplayFault,
) -> Result<Vec<u8>, AllocError>
    requires { IsNumbered before fault.now }
    ensures { IfOk result (λ output. output.items ≡ refused_output is_json before fault.now) }
{
    match fault {
        ReplayFault::NoEntry(place, _) if is_json => {
            Ok(refused_line(alloc, "no_entry", before + *place)?.into_bytes())
        }
        ReplayFault::Differs(place, _) if is_json => {
            Ok(refused_line(alloc, "differs", before + *place)?.into_bytes())
        }
        ReplayFault::Differs(_, right) => {
            let mut line = right.clone()?;
            line.push(b'\n')?;
            Ok(line)
        }
        _ => Ok(Vec::new(alloc)),
    }
}

/// The program's error for a refused call log that follows `before` lines of other call logs.
fn replay_fault(before: u64, fault: &ReplayFault) -> Fault
    requires { IsNumbered before fault.now }
    ensures { result ≡ replay_fault before fault.now }
{
    match fault {
        ReplayFault::Memory => Fault::Memory,
        ReplayFault::NoEntry(place, _) => Fault::NoEntry(before + *place),
        ReplayFault::Differs(place, _) => Fault::Differs(before + *place),
    }
}

/// A call log that is being read. The next record, or the end of the input, ends it.
#[derive(Drop)]
struct OpenAccount {
    /// The lines so far, each with a carriage return and a line feed.
    text: Vec<u8>,
    /// The number of lines of earlier call logs.
    before: u64,
    /// Whether to write the verdict as JSON.
    is_json: bool,
}

/// Writes the output for a refused call log and returns the error. Stores the call log as evidence, unless memory ran
/// out.
fn refuse(
    alloc: Global,
    account: OpenAccount,
    fault: ReplayFault,
    output: &mut Vec<u8>,
    evidence: &mut Evidence,
) -> Result<u64, Fault>
    requires { IsNumbered account.before fault }
    ensures refused { IsErr result }
    ensures fault { IfErr result (λ given. (why : ReplayFault) × (given ≡ replay_fault account.before why) × (output.old.items ≡ [] → output.new.items ≡ refused_output account.is_json account.before why)
        × (why ≢ ReplayFault.Memory → why ≡ fault)) }
{
    if let ReplayFault::Memory = fault {
        return Err(Fault::Memory);
    }
    let OpenAccount {
        text,
        before,
        is_json,
    } = account;
    let refused = replay_fault(before, &fault);
    *output = refused_output(alloc, is_json, before, &fault)?;
    *evidence = Evidence::Account(text, before, fault);
    Err(refused)
}

/// Replays a call log on a new desk with these games, and returns the number of calls. If the call log is refused, the
/// output is the output of `refuse`. If memory runs out, there is no output.
fn answer<G: Game + Drop>(
    alloc: Global,
    games: Vec<G>,
    account: OpenAccount,
    output: &mut Vec<u8>,
    evidence: &mut Evidence,
) -> Result<u64, Fault>
    requires { account.before + length (lines account.text.items) ≤ last_count }
    ensures replayed { OnOk result (IsReplayed account.is_json G.rules games.items (lines account.text.items) output.new.items) }
    ensures counted { IfOk result (λ calls. calls ≡ length (lines account.text.items)) }
    ensures refused { IfErr result (λ fault. output.old.items ≡ [] → IsRefusedAccount account.is_json G.rules games.items account.before (lines account.text.items) fault output.new.items) }
{
    match replay(alloc, games, &account.text) {
        Ok(replayed) => match replayed_text(alloc, account.is_json, &replayed) {
            Ok(text) => {
                *output = text;
                Ok(replayed.calls)
            }
            Err(fault) => Err(Fault::from(fault)),
        },
        Err(fault) => refuse(alloc, account, fault, output, evidence),
    }
}

impl OpenAccount {
    /// Appends a line, unless it begins with a brace. Records begin with a brace; lines of call logs do not. Returns
    /// whether the line begins with a brace. Returns an error if the call log would have more than 256 MiB, or if
    /// memory runs out.
    fn push(&mut self, line: &[u8]) -> Result<bool, Fault>
        requires { length self.old.text.items ≤ max_account }
        ensures told { IfOk result (λ is_record. is_record ≡ begins_as_record line.now) }
        ensures pushed { OnOk result (self.new.text.items ≡ self.old.text.items ++ line_text line.now) }
        ensures within { OnOk result (length self.new.text.items ≤ max_account) }
        ensures same { self.new.before ≡ self.old.before }
        ensures form { self.new.is_json ≡ self.old.is_json }
        ensures fails { IfErr result (λ fault. (begins_as_record line.now ≡ false) × StopsLongAccount fault (length self.old.text.items + (length line.now + 2))) }
    {
        if line.first() == Some(&b'{') {
            return Ok(true);
        }
        let room = MAX_ACCOUNT - self.text.len();
        if room < 2 || room - 2 < line.len() {
            return Err(Fault::InputTooLong);
        }
        self.text.extend_from_slice(line)?;
        self.text.extend_from_slice(b"\r\n")?;
        Ok(false)
    }

    /// Replays the call log, writes the output for it, and begins the next call log. Skips a call log without lines,
    /// unless it is the only one of the input.
    fn end<G: Game, W: Write>(
        &mut self,
        alloc: Global,
        game: &G,
        is_last: bool,
        writer: &mut Counted<W>,
        evidence: &mut Evidence,
    ) -> Result<(), Fault>
        requires { self.old.before + length (lines self.old.text.items) ≤ last_count }
        ensures ended { OnOk result ((self.new.text.items ≡ []) × (self.new.before ≡ self.old.before + length (lines self.old.text.items))) }
        ensures form { OnOk result (self.new.is_json ≡ self.old.is_json) }
        ensures replayed { OnOk result ((output : List ℕ) × IsEnded self.old.is_json G.rules (game.now ∷ []) (is_skipped self.old.text.items is_last self.old.before) (lines self.old.text.items) output
            × Appends (W.contents writer.old.stream) (W.contents writer.new.stream) output) }
        ensures no_fault { OnOk result (writer.new.faults ≡ writer.old.faults) }
        ensures fails { IfErr result (AccountFails W.contents self.old.is_json G.rules (game.now ∷ []) self.old.before (lines self.old.text.items) writer.old writer.new) }
    {
        if self.text.is_empty() && !(is_last && self.before == 0) {
            return Ok(());
        }
        let mut games = Vec::new(alloc);
        games.push(Lent::new(game))?;
        let next = OpenAccount {
            text: Vec::new(alloc),
            before: self.before,
            is_json: self.is_json,
        };
        let account = mem::replace(self, next);
        let mut output = Vec::new(alloc);
        let answered = answer(alloc, games, account, &mut output, evidence);
        write_all(writer, &output)?;
        self.before += answered?;
        Ok(())
    }
}

/// Reads the call logs of an input, and replays each on a new desk. A line that begins as a record does ends a call
/// log. Writes the output for each call log before it reads the next one.
pub fn replay_accounts<R: Read, W: Write, G: Game>(
    alloc: Global,
    is_json: bool,
    reader: &mut Counted<R>,
    writer: &mut Counted<W>,
    game: &G,
    evidence: &mut Evidence,
) -> Result<(), Fault>
    ensures replayed { OnOk result ((input output : List ℕ) × ReadsAndWrites R.remaining W.contents input output reader.old reader.new writer.old writer.new
        × AreReplayed is_json G.rules (game.now ∷ []) (accounts input) output) }
    ensures fails { IfErr result (λ fault. (given : List ℕ)
        × Consumes (R.remaining reader.old.stream) (R.remaining reader.new.stream) given
        × ReplayFails W.contents is_json G.rules (game.now ∷ []) given fault reader.old reader.new writer.old writer.new) }
{
    lines_are_taken();
    let mut buffer = LineBuffer::new();
    let mut account = OpenAccount {
        text: Vec::new(alloc),
        before: 0,
        is_json,
    };
    for place in 0..u64::MAX {
        match buffer.next_line(alloc, reader, MAX_LINE) {
            Ok(NextLine::Ended(line)) => {
                if account.push(&line)? {
                    account.end(alloc, game, false, writer, evidence)?;
                }
            }
            Ok(NextLine::Last(line)) => {
                account.push(&line)?;
                return account.end(alloc, game, true, writer, evidence);
            }
            Ok(NextLine::Nothing) => return account.end(alloc, game, true, writer, evidence),
            Err(fault) => return Err(Fault::from(fault)),
        }
    }
    Err(Fault::InputTooLong)
}
