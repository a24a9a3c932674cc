//! A desk that answers each line before it reads the next one, so that another program can use it over the streams.
ghost use Rattle.std.specs.Prelude.{◌≡◌, ◌≤◌, ◌∷◌, [], ℕ, List, IfErr, IfOk, OnOk};
ghost use Rattle.std.specs.Io.KnownBytes.{Appends, Consumes, IsAtEnd};
ghost use Rattle.std.specs.Str.Lines.{lines};
ghost use Rattle.whole_streams.specs.Lines.{BeginsWithLines};
ghost use Rattle.game_commands.specs.Interactive.{InteractiveFails, StopsAnswering, StopsWriting, Writes};
ghost use Rattle.game_commands.specs.Script.{after_lines, answer_lines, bad_lines, records, script_output};

use crate::answers::{answer_line, push_records};
use crate::script::MAX_SCRIPT;
use call_history::Object;
use command_faults::Fault;
use desk_calls::{Call, Reply};
use game_core::{Counted, Game};
use match_desk::Manager;
use std::alloc::Global;
use std::io::{Read, Write};
use whole_streams::laws::lines_are_taken;
use whole_streams::{LineBuffer, NextLine, write_all};

/// Answers a line. Returns the number of bad lines, 0 or 1.
fn answer_now<O: Object<Call = Call, Reply = Reply>, W: Write>(
    alloc: Global,
    object: &mut O,
    line: &[u8],
    writer: &mut Counted<W>,
) -> Result<u64, Fault>
    ensures answered { OnOk result (Appends (W.contents writer.old.stream) (W.contents writer.new.stream) (answer_lines O.reply O.after object.old (line.now ∷ []))) }
    ensures no_fault { OnOk result (writer.new.faults ≡ writer.old.faults) }
    ensures after { OnOk result (object.new ≡ after_lines O.after object.old (line.now ∷ [])) }
    ensures bad { IfOk result (λ bad. bad ≡ bad_lines (line.now ∷ [])) }
    ensures small { IfOk result (λ bad. bad ≤ 1) }
    ensures stops { IfErr result (λ fault. StopsWriting W.contents [] (answer_lines O.reply O.after object.old (line.now ∷ [])) fault writer.old writer.new) }
{
    let mut answer = Vec::new(alloc);
    let is_call = answer_line(alloc, object, line, &mut answer)?;
    write_all(writer, answer.as_slice())?;
    Ok(if is_call { 0 } else { 1 })
}

/// Answers each line of the input before it reads the next one. Returns the number of bad lines.
fn answer_each<O: Object<Call = Call, Reply = Reply>, R: Read, W: Write>(
    alloc: Global,
    object: &mut O,
    reader: &mut Counted<R>,
    writer: &mut Counted<W>,
) -> Result<u64, Fault>
    ensures answered { IfOk result (λ bad. (input : List ℕ)
        × Consumes (R.remaining reader.old.stream) (R.remaining reader.new.stream) input
        × IsAtEnd (R.remaining reader.new.stream)
        × Appends (W.contents writer.old.stream) (W.contents writer.new.stream) (answer_lines O.reply O.after object.old (lines input))
        × (object.new ≡ after_lines O.after object.old (lines input))
        × (bad ≡ bad_lines (lines input))) }
    ensures no_fault { OnOk result ((reader.new.faults ≡ reader.old.faults) × (writer.new.faults ≡ writer.old.faults)) }
    ensures stops { IfErr result (λ fault. (given : List ℕ) × (first : List (List ℕ)) × (left : List ℕ)
        × Consumes (R.remaining reader.old.stream) (R.remaining reader.new.stream) given
        × BeginsWithLines given first left
        × StopsAnswering R.remaining W.contents (answer_lines O.reply O.after object.old) fault first left reader.old reader.new writer.old writer.new) }
{
    lines_are_taken();
    let mut buffer = LineBuffer::new();
    let mut bad = 0;
    for place in 0..u64::MAX {
        match buffer.next_line(alloc, reader, MAX_SCRIPT) {
            Ok(NextLine::Ended(line)) => match answer_now(alloc, object, &line, writer) {
                Ok(more) => bad += more,
                Err(fault) => return Err(fault),
            },
            Ok(NextLine::Last(line)) => match answer_now(alloc, object, &line, writer) {
                Ok(more) => return Ok(bad + more),
                Err(fault) => return Err(fault),
            },
            Ok(NextLine::Nothing) => return Ok(bad),
            Err(fault) => return Err(Fault::from(fault)),
        }
    }
    Err(Fault::InputTooLong)
}

fn write_records<G: Game, W: Write>(
    alloc: Global,
    manager: &Manager<G>,
    writer: &mut Counted<W>,
) -> Result<(), Fault>
    ensures whole { OnOk result (Writes W.contents (records G.rules manager.now manager.now.matches) writer.old writer.new) }
    ensures stops { IfErr result (λ fault. StopsWriting W.contents [] (records G.rules manager.now manager.now.matches) fault writer.old writer.new) }
{
    let mut text = Vec::new(alloc);
    push_records(alloc, manager, &mut text)?;
    write_all(writer, text.as_slice())?;
    Ok(())
}

/// Answers each line of a script on a new desk with these games before it reads the next line. At the end, writes the
/// record of each match, in the order the matches were opened. A line may be as long as a whole script. Returns the
/// number of bad lines.
pub fn run_interactive<R: Read, W: Write, G: Game + Drop>(
    alloc: Global,
    reader: &mut Counted<R>,
    writer: &mut Counted<W>,
    games: Vec<G>,
) -> Result<u64, Fault>
    ensures output { IfOk result (λ bad. (input : List ℕ)
        × Consumes (R.remaining reader.old.stream) (R.remaining reader.new.stream) input
        × IsAtEnd (R.remaining reader.new.stream)
        × Appends (W.contents writer.old.stream) (W.contents writer.new.stream) (script_output G.rules games.items input)
        × (bad ≡ bad_lines (lines input))) }
    ensures no_fault { OnOk result ((reader.new.faults ≡ reader.old.faults) × (writer.new.faults ≡ writer.old.faults)) }
    ensures fails { IfErr result (λ fault. (given : List ℕ)
        × Consumes (R.remaining reader.old.stream) (R.remaining reader.new.stream) given
        × InteractiveFails R.remaining W.contents G.rules games.items fault given reader.old reader.new writer.old writer.new) }
{
    let mut manager = Manager::new(alloc, games)?;
    let bad = match answer_each(alloc, &mut manager, reader, writer) {
        Ok(bad) => bad,
        Err(fault) => return Err(fault),
    };
    match write_records(alloc, &manager, writer) {
        Ok(()) => Ok(bad),
        Err(fault) => Err(fault),
    }
}
