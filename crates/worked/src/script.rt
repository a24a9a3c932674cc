//! Scripts with an arrow and the reply after each call.
use game_commands::answer_script;
use game_core::{Countdown, Game};
use ground_rules::load;
use kif_text::read_all;
use packed_rules::{PackedGame, pack};
use std::alloc::{AllocError, Global};
use std::test::Fail;

/// The calls on a desk, and the replies that it must give.
#[derive(Drop)]
struct Script {
    calls: Vec<u8>,
    replies: Vec<u8>,
}

fn push_line(text: &mut Vec<u8>, line: &str) -> Result<(), AllocError> {
    text.extend_from_slice(line.as_bytes())?;
    text.push(b'\n')?;
    Ok(())
}

fn read_script(alloc: Global, text: &str) -> Result<Script, AllocError> {
    let mut calls = Vec::new(alloc);
    let mut replies = Vec::new(alloc);
    for line in text.lines() {
        if let Some((call, reply)) = line.split_once(" -> ") {
            push_line(&mut calls, call)?;
            push_line(&mut replies, reply)?;
        }
    }
    Ok(Script { calls, replies })
}

/// Whether a desk of this game gives the reply to each call, and then these records.
pub fn is_played<G: Game + Drop>(
    alloc: Global,
    game: G,
    text: &str,
    records: &str,
) -> Result<bool, AllocError> {
    let Script { calls, mut replies } = read_script(alloc, text)?;
    replies.extend_from_slice(records.as_bytes())?;
    let mut games = Vec::new(alloc);
    games.push(game)?;
    let answers = answer_script(alloc, games, calls.as_slice())?;
    Ok(answers.text.as_slice() == replies.as_slice())
}

/// Whether a desk of Countdown with a heap of this size gives the reply to each call, and then these records.
pub fn is_counted_down(alloc: Global, heap: u8, text: &str, records: &str) -> Result<bool, Fail> {
    let game = Countdown::new(heap).ok_or("no such game")?;
    Ok(is_played(alloc, game, text, records)?)
}

/// The game of a description, in the form that is fast to play.
pub fn packed(alloc: Global, rules: &[u8]) -> Result<PackedGame, Fail> {
    let sentences = read_all(alloc, rules)?;
    let game = load(alloc, sentences.as_slice())?;
    Ok(pack(alloc, game).ok().ok_or("no memory")?)
}
