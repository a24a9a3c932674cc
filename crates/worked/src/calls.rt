//! Ten calls on each of four lines of a desk of Countdown, and checks of the desk's history.
ghost use Rattle.std.specs.Prelude.{◌≡◌, []};

use call_history::{Entry, Wire};
use game_core::{Countdown, Text, Texts};
use match_desk::{Call, Manager, Reply};
use std::alloc::{AllocError, Global};
use std::process::Abort;

/// The number of calls of each line.
pub const CALLS: u32 = 10;

/// Makes a manager of Countdown with a heap of three, without matches.
pub fn manager<R: Abort>(rt: &R, alloc: Global) -> Manager<Countdown>
    ensures { result.matches ≡ [] }
{
    let Some(game) = Countdown::new(3) else {
        panic!(rt; "no such game");
    };
    let mut games = Vec::new(alloc);
    let Ok(()) = games.push(game) else {
        panic!(rt; "no memory");
    };
    let Ok(manager) = Manager::new(alloc, games) else {
        panic!(rt; "no memory");
    };
    manager
}

pub fn text(alloc: Global, text: &str) -> Result<Text, AllocError> {
    Text::from_slice(alloc, text.as_bytes())
}

/// Makes texts of these words, in order.
pub fn texts(alloc: Global, words: &[&str]) -> Result<Texts, AllocError> {
    let mut items = Vec::new(alloc);
    for word in words {
        items.push(text(alloc, word)?)?;
    }
    Ok(Texts { items })
}

/// Opens a match of the first game.
pub fn open(alloc: Global, id: &str) -> Result<Call, AllocError> {
    Ok(Call::Open {
        id: text(alloc, id)?,
        game: 0,
        start: 1,
        play: 1,
        strikes: 0,
        players: texts(alloc, &["ann", "bob"])?,
    })
}

fn query(alloc: Global, id: &str) -> Result<Call, AllocError> {
    let id = text(alloc, id)?;
    Ok(Call::Query { id })
}

/// Whether the line opens a match at this turn, and the match's id. A line that does not open the match queries the
/// match.
fn step_of(line: u32, turn: u32) -> (bool, &'static str) {
    match (line, turn) {
        (0, 0) => (true, "m1"),
        (0, 1) => (true, "m2"),
        (0, 2) => (true, "m3"),
        (0 | 1, _) => (false, "m1"),
        (2, _) => (false, "m2"),
        _ => (false, "m3"),
    }
}

fn call_of(alloc: Global, line: u32, turn: u32) -> Result<Call, AllocError> {
    let (opens, id) = step_of(line, turn);
    if opens {
        open(alloc, id)
    } else {
        query(alloc, id)
    }
}

/// Makes the ten calls of the line with this number, and returns the replies.
pub fn ten_replies<W: Wire<Call = Call, Reply = Reply>>(
    alloc: Global,
    wire: &mut W,
    line: u32,
) -> Option<Vec<Reply>> {
    let mut replies = Vec::new(alloc);
    for turn in 0..CALLS {
        let call = call_of(alloc, line, turn).ok()?;
        let reply = wire.ask(call).ok()?;
        replies.push(reply).ok()?;
    }
    Some(replies)
}

fn are_ann_and_bob(players: &Texts) -> bool {
    match players.as_slice() {
        [first, second] => {
            first.as_slice() == b"ann".as_slice() && second.as_slice() == b"bob".as_slice()
        }
        _ => false,
    }
}

fn is_call_of(call: &Call, line: u32, turn: u32) -> bool {
    let (opens, wanted) = step_of(line, turn);
    match call {
        Call::Open {
            id,
            game,
            start,
            play,
            strikes,
            players,
        } => {
            opens
                && id.as_slice() == wanted.as_bytes()
                && (*game, *start, *play, *strikes) == (0, 1, 1, 0)
                && are_ann_and_bob(players)
        }
        Call::Query { id } => !opens && id.as_slice() == wanted.as_bytes(),
        _ => false,
    }
}

/// Whether two replies to `Open` or `Query` are equal.
fn is_same_reply(some: &Reply, other: &Reply) -> bool {
    match (some, other) {
        (Reply::Opened, Reply::Opened) => true,
        (Reply::Status(some), Reply::Status(other)) => some == other,
        (Reply::Refused(some), Reply::Refused(other)) => some == other,
        _ => false,
    }
}

/// Whether the entries of the line are its ten calls in order, with these replies.
pub fn are_calls_of(history: &[Entry<Call, Reply>], line: u32, replies: &[Reply]) -> bool {
    let mut is_so = true;
    let mut turn = 0u32;
    for entry in history {
        if entry.line == line {
            is_so = is_so && is_entry_of(entry, turn, replies);
            turn = turn.saturating_add(1);
        }
    }
    is_so && turn == CALLS
}

fn is_entry_of(entry: &Entry<Call, Reply>, turn: u32, replies: &[Reply]) -> bool {
    match replies.get(turn as usize) {
        Some(reply) => {
            is_call_of(&entry.call, entry.line, turn) && is_same_reply(&entry.reply, reply)
        }
        None => false,
    }
}
