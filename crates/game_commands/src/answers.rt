//! The output for a script: an answer to each line of the input, and then the records of the matches.
ghost use Rattle.std.specs.Prelude.{◌≡◌, ◌++◌, ◌∷◌, [], IfOk, OnOk, is_some};
ghost use Rattle.std.specs.Str.Lines.{lines};
ghost use Rattle.game_core.specs.Bytes.{line_feed};
ghost use Rattle.desk_text.specs.ScriptLines.{call_of};
ghost use Rattle.game_commands.specs.Script.{line_answer, after_line, answer_lines, after_lines, bad_lines, records, script_output};

use call_history::Object;
use desk_calls::{Call, Reply};
use desk_text::{call_of, first_line, push_reply};
use game_core::Game;
use match_desk::Manager;
use match_record::push_record;
use std::alloc::{AllocError, Global};

/// The output for a script, and the number of its bad lines.
#[derive(Drop)]
pub struct Answers {
    /// The answers to the lines, and then the records, in the order the matches were opened. Each answer and each
    /// record ends with a line feed.
    pub text: Vec<u8>,
    pub bad_lines: u64,
}

/// Appends the answer to one line. Returns whether the line contains a valid call.
pub(crate) fn answer_line<O: Object<Call = Call, Reply = Reply>>(
    alloc: Global,
    object: &mut O,
    line: &[u8],
    out: &mut Vec<u8>,
) -> Result<bool, AllocError>
    ensures good { IfOk result (λ good. good ≡ is_some (call_of line.now)) }
    ensures answer { OnOk result (out.new.items ≡ out.old.items ++ line_answer O.reply object.old (call_of line.now) ++ line_feed ∷ []) }
    ensures after { OnOk result (object.new ≡ after_line O.after object.old (call_of line.now)) }
{
    let Ok(call) = call_of(alloc, line)? else {
        out.extend_from_slice(b"badline\n")?;
        return Ok(false);
    };
    let reply = object.answer(alloc, &call)?;
    push_reply(out, &reply)?;
    out.push(b'\n')?;
    object.apply(alloc, &call)?;
    Ok(true)
}

fn answer_input<O: Object<Call = Call, Reply = Reply>>(
    alloc: Global,
    object: &mut O,
    input: &[u8],
) -> Result<Answers, AllocError>
    ensures text { IfOk result (λ a. a.text.items ≡ answer_lines O.reply O.after object.old (lines input.now)) }
    ensures bad_lines { IfOk result (λ a. a.bad_lines ≡ bad_lines (lines input.now)) }
    ensures after { OnOk result (object.new ≡ after_lines O.after object.old (lines input.now)) }
{
    let mut text = Vec::new(alloc);
    let mut bad_lines = 0;
    let mut rest = input;
    while !rest.is_empty() {
        let (line, more) = first_line(rest);
        if !answer_line(alloc, object, line, &mut text)? {
            bad_lines += 1;
        }
        rest = more;
    }
    Ok(Answers { text, bad_lines })
}

/// Appends to `out` the record of each match, with a line feed, in the order the matches were opened.
pub fn push_records<G: Game>(
    alloc: Global,
    manager: &Manager<G>,
    out: &mut Vec<u8>,
) -> Result<(), AllocError>
    ensures { OnOk result (out.new.items ≡ out.old.items ++ records G.rules manager.now manager.now.matches) }
{
    for place in 0..manager.matches() {
        let game = manager.game_of_match(place).unwrap();
        let held = manager.match_at(place).unwrap();
        push_record(alloc, out, game, held)?;
        out.push(b'\n')?;
    }
    Ok(())
}

/// Runs a script on a new desk with these games.
pub fn answer_script<G: Game + Drop>(
    alloc: Global,
    games: Vec<G>,
    input: &[u8],
) -> Result<Answers, AllocError>
    ensures text { IfOk result (λ a. a.text.items ≡ script_output G.rules games.items input.now) }
    ensures bad_lines { IfOk result (λ a. a.bad_lines ≡ bad_lines (lines input.now)) }
{
    let mut manager = Manager::new(alloc, games)?;
    let mut answers = answer_input(alloc, &mut manager, input)?;
    push_records(alloc, &manager, &mut answers.text)?;
    Ok(answers)
}
