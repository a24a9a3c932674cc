//! Runs a script on a desk: reads the whole script, answers each line, and then writes the answers and the records.
ghost use Rattle.std.specs.Prelude.{◌≡◌, ℕ, List, length, IfOk, OnOk, IfErr};
ghost use Rattle.std.specs.Io.KnownBytes.{Consumes, Appends, IsAtEnd};
ghost use Rattle.std.specs.Str.Lines.{lines};
ghost use Rattle.game_commands.specs.Script.{bad_lines, script_output};
ghost use Rattle.game_commands.specs.ScriptFaults.{ScriptFails};

use crate::answers::answer_script;
use crate::evidence::Evidence;
use command_faults::Fault;
use game_core::{Counted, Game};
use std::alloc::Global;
use std::io::{Read, Write};
use whole_streams::{read_to_end, write_all};

pub(crate) const MAX_SCRIPT: usize = 1_048_576;

/// Reads a whole script, answers each line on a new desk with these games, and writes the answers and then the record
/// of each match, in the order the matches were opened. Returns the number of bad lines. If there is a bad line, stores
/// the script as evidence.
pub fn run_script<R: Read, W: Write, G: Game + Drop>(
    alloc: Global,
    reader: &mut Counted<R>,
    writer: &mut Counted<W>,
    games: Vec<G>,
    evidence: &mut Evidence,
) -> Result<u64, Fault>
    ensures output { IfOk result (λ bad. (input : List ℕ)
        × Consumes (R.remaining reader.old.stream) (R.remaining reader.new.stream) input
        × IsAtEnd (R.remaining reader.new.stream)
        × Appends (W.contents writer.old.stream) (W.contents writer.new.stream) (script_output G.rules games.items input)
        × (bad ≡ bad_lines (lines input))) }
    ensures no_fault { OnOk result ((reader.new.faults ≡ reader.old.faults) × (writer.new.faults ≡ writer.old.faults)) }
    ensures fails { IfErr result (λ fault. (given : List ℕ)
        × Consumes (R.remaining reader.old.stream) (R.remaining reader.new.stream) given
        × ScriptFails R.remaining W.contents (script_output G.rules games.items given) fault (length given) reader.old reader.new writer.old writer.new) }
{
    let input = read_to_end(alloc, reader, MAX_SCRIPT)?;
    let answers = answer_script(alloc, games, &input)?;
    write_all(writer, answers.text.as_slice())?;
    if answers.bad_lines > 0 {
        *evidence = Evidence::Script(input);
    }
    Ok(answers.bad_lines)
}
