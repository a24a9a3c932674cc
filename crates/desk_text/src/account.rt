//! Writes the call log of a desk: its history as text, with one line for each entry.
ghost use Rattle.std.specs.Prelude.{◌≡◌, [], ◌∷◌, ◌++◌, map, OnOk};
ghost use Rattle.std.specs.Fmt.{decimal};
ghost use Rattle.game_core.specs.Bytes.{space};
ghost use Rattle.desk_calls.specs.declared.call.Call.TheVariants.{Open};
ghost use Rattle.desk_text.specs.Account.{call_text, entry_text, history_text};
ghost use Rattle.desk_text.specs.Escapes.{escaped_name, escaped_text};
ghost use Rattle.desk_text.specs.Words.{behind_spaces};

use crate::escapes::push_escaped;
use crate::reply_lines::{push_number, push_reply};
use call_history::Entry;
use desk_calls::{Call, Reply};
use game_core::{Text, Texts};
use std::alloc::{AllocError, Global};

fn push_behind_space(out: &mut Vec<u8>, number: u64) -> Result<(), AllocError>
    ensures { OnOk result (out.new.items ≡ out.old.items ++ space ∷ decimal number) }
{
    out.push(b' ')?;
    push_number(out, number)
}

/// Appends an escaped name to `out`. Spaces are escaped too.
fn push_name(out: &mut Vec<u8>, name: &Text) -> Result<(), AllocError>
    ensures { OnOk result (out.new.items ≡ out.old.items ++ escaped_name name.now) }
{
    push_escaped(out, name.as_slice(), b'!')
}

/// Appends an escaped text to `out`. Spaces are not escaped.
fn push_text(out: &mut Vec<u8>, text: &[u8]) -> Result<(), AllocError>
    ensures { OnOk result (out.new.items ≡ out.old.items ++ escaped_text text.now) }
{
    push_escaped(out, text, b' ')
}

fn push_text_behind_space(out: &mut Vec<u8>, text: &[u8]) -> Result<(), AllocError>
    ensures { OnOk result (out.new.items ≡ out.old.items ++ space ∷ escaped_text text.now) }
{
    out.push(b' ')?;
    push_text(out, text)
}

fn push_names(out: &mut Vec<u8>, names: &[Text]) -> Result<(), AllocError>
    ensures { OnOk result (out.new.items ≡ out.old.items ++ behind_spaces (map escaped_name names.now)) }
{
    for name in names {
        out.push(b' ')?;
        push_name(out, name)?;
    }
    Ok(())
}

fn push_keyword(out: &mut Vec<u8>, keyword: &[u8], id: &Text) -> Result<(), AllocError>
    ensures { OnOk result (out.new.items ≡ out.old.items ++ keyword.now ++ space ∷ escaped_name id.now) }
{
    out.extend_from_slice(keyword)?;
    out.push(b' ')?;
    push_name(out, id)
}

/// Appends the index of a game and the two clocks in seconds to `out`, each after a space.
fn push_opening(out: &mut Vec<u8>, game: usize, start: u32, play: u32) -> Result<(), AllocError>
    ensures { OnOk result (out.new.items ≡ out.old.items ++ behind_spaces (decimal game ∷ (decimal start ∷ (decimal play ∷ [])))) }
{
    push_behind_space(out, game as u64)?;
    push_behind_space(out, u64::from(start))?;
    push_behind_space(out, u64::from(play))
}

/// Appends an `Open` call without its players to `out`: as an `open` line if `strikes` is 0, and otherwise as a `strict` line.
fn push_open(
    out: &mut Vec<u8>,
    id: &Text,
    game: usize,
    start: u32,
    play: u32,
    strikes: u32,
) -> Result<(), AllocError>
    ensures { OnOk result (out.new.items ≡ out.old.items ++ call_text (Open id.now game start play strikes [])) }
{
    if strikes == 0 {
        push_keyword(out, b"open", id)?;
        return push_opening(out, game, start, play);
    }
    push_keyword(out, b"strict", id)?;
    push_opening(out, game, start, play)?;
    push_behind_space(out, u64::from(strikes))
}

/// Appends the call to `out` as in a script, except that names and text are escaped.
fn push_call(out: &mut Vec<u8>, call: &Call) -> Result<(), AllocError>
    ensures { OnOk result (out.new.items ≡ out.old.items ++ call_text call.now) }
{
    match call {
        Call::Open {
            id,
            game,
            start,
            play,
            strikes,
            players,
        } => {
            push_open(out, id, *game, *start, *play, *strikes)?;
            push_names(out, players.as_slice())
        }
        Call::Next { id, role } => {
            push_keyword(out, b"next", id)?;
            push_behind_space(out, *role as u64)
        }
        Call::Submit {
            id,
            role,
            round,
            text,
        } => {
            push_keyword(out, b"submit", id)?;
            push_behind_space(out, *role as u64)?;
            push_behind_space(out, *round)?;
            push_text_behind_space(out, text.as_slice())
        }
        Call::Miss {
            id,
            role,
            round,
            broken,
        } => {
            push_keyword(out, b"miss", id)?;
            push_behind_space(out, *role as u64)?;
            push_behind_space(out, *round)?;
            if *broken {
                out.extend_from_slice(b" broken")
            } else {
                out.extend_from_slice(b" silent")
            }
        }
        Call::Query { id } => push_keyword(out, b"query", id),
        Call::Abort { id } => push_keyword(out, b"abort", id),
    }
}

/// The initial capacity for a reply's text, which is enough for most replies.
const USUAL_LENGTH: usize = 128;

/// Appends the text of an entry to `out`, without a line feed.
pub(crate) fn push_entry(
    alloc: Global,
    out: &mut Vec<u8>,
    line: u32,
    call: &Call,
    reply: &Reply,
) -> Result<(), AllocError>
    ensures { OnOk result (out.new.items ≡ out.old.items ++ entry_text (record { line = line; call = call.now; reply = reply.now })) }
{
    push_number(out, u64::from(line))?;
    out.push(b'\t')?;
    push_call(out, call)?;
    out.push(b'\t')?;
    let mut text = Vec::with_capacity(alloc, USUAL_LENGTH)?;
    push_reply(&mut text, reply)?;
    push_text(out, text.as_slice())
}

/// Appends the text of each entry to `out`, with a line feed. The text of an entry is the number of its line of the desk, a tab,
/// the call as in a script, a tab, and the reply. Each byte that is not visible ASCII, and the backslash, is written as `\xHH`;
/// spaces are escaped only in names.
pub fn push_history(
    alloc: Global,
    out: &mut Vec<u8>,
    history: &[Entry<Call, Reply>],
) -> Result<(), AllocError>
    ensures { OnOk result (out.new.items ≡ out.old.items ++ history_text history.now) }
{
    for entry in history {
        push_entry(alloc, out, entry.line, &entry.call, &entry.reply)?;
        out.push(b'\n')?;
    }
    Ok(())
}
