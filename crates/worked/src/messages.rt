//! Messages that are written and read, and answers to INFO.
use crate::calls::texts;
use crate::holding::holds;
use game_core::Text;
use kif_text::{Expr, print, read_all};
use match_book::Owed;
use match_messages::{Brief, Info, Message, MessageFault, message, read_info, read_message};
use std::alloc::{AllocError, Global};
use std::test::Fail;

const RULES: &[u8] =
    b"(role solo) (init done) (<= terminal (true done)) (goal solo 50) (legal solo rest)";

const START: &[u8] =
    b"(START t solo ((role solo) (init done) (<= terminal (true done)) (goal solo 50) (legal solo rest)) 1 1)";

const PLAY: &[u8] = b"(PLAY m1 ((take 1) noop))";

fn brief(alloc: Global, id: &[u8], role: &str, rules: &[u8]) -> Result<Brief, Fail> {
    Ok(Brief {
        id: Text::from_slice(alloc, id)?,
        roles: texts(alloc, &[role])?,
        rules: read_all(alloc, rules)?,
        start: 1,
        play: 1,
    })
}

/// Whether the message that the match owes to its only role has this text. `told` contains the id, the role and the
/// rules of the match.
fn is_written(
    alloc: Global,
    told: (&[u8], &str, &[u8]),
    owed: Owed,
    wanted: &[u8],
) -> Result<bool, Fail> {
    let brief = brief(alloc, told.0, told.1, told.2)?;
    if brief.roles.as_slice().is_empty() {
        return Ok(false);
    }
    Ok(message(alloc, &brief, 0, &owed)?.as_slice() == wanted)
}

fn play_of_turn(alloc: Global) -> Result<Owed, AllocError> {
    Ok(Owed::Play(Some(texts(alloc, &["(take 1)", "noop"])?)))
}

#[test]
fn messages_have_their_texts(rt: HostRuntime) -> Result<(), Fail> {
    let alloc = rt.alloc();
    let solo = (b"t".as_slice(), "solo", RULES);
    let red = (b"m1".as_slice(), "red", b"".as_slice());
    let is_so = is_written(alloc, solo, Owed::Start, START)?;
    holds(&rt, is_so, "START");
    let is_so = is_written(alloc, red, play_of_turn(alloc)?, PLAY)?;
    holds(&rt, is_so, "PLAY");
    let is_so = is_written(alloc, solo, Owed::Stop(None), b"(STOP t NIL)")?;
    holds(&rt, is_so, "STOP");
    let is_so = is_written(alloc, red, Owed::Abort, b"(ABORT m1)")?;
    holds(&rt, is_so, "ABORT");
    Ok(())
}

/// Whether the expressions print as these texts, in order.
fn are_printed(alloc: Global, exprs: &[Expr], wanted: &[&str]) -> Result<bool, AllocError> {
    let mut is_so = exprs.len() == wanted.len();
    for (expr, text) in exprs.iter().zip(wanted) {
        is_so = is_so && print(alloc, expr)?.as_slice() == text.as_bytes();
    }
    Ok(is_so)
}

/// Whether START contains the parts that it was written from.
fn is_start(alloc: Global, found: &Message) -> Result<bool, AllocError> {
    let Message::Start {
        id,
        role,
        rules,
        start,
        play,
    } = found
    else {
        return Ok(false);
    };
    let wanted = [
        "(role solo)",
        "(init done)",
        "(<= terminal (true done))",
        "(goal solo 50)",
        "(legal solo rest)",
    ];
    Ok(
        id.as_slice() == b"t".as_slice()
            && print(alloc, role)?.as_slice() == b"solo".as_slice()
            && are_printed(alloc, rules.as_slice(), &wanted)?
            && (*start, *play) == (1, 1),
    )
}

/// Whether this is PLAY with these moves in the match `m1`.
fn is_play(alloc: Global, found: &Message, wanted: &[&str]) -> Result<bool, AllocError> {
    match found {
        Message::Play {
            id,
            moves: Some(moves),
        } => Ok(id.as_slice() == b"m1".as_slice() && are_printed(alloc, moves.as_slice(), wanted)?),
        _ => Ok(false),
    }
}

fn reads_start(alloc: Global) -> Result<bool, AllocError> {
    match read_message(alloc, START) {
        Ok(found) => is_start(alloc, &found),
        Err(_) => Ok(false),
    }
}

fn reads_play(alloc: Global) -> Result<bool, AllocError> {
    match read_message(alloc, PLAY) {
        Ok(found) => is_play(alloc, &found, &["(take 1)", "noop"]),
        Err(_) => Ok(false),
    }
}

/// Whether the text is a STOP without moves, or an ABORT, of the match `t`.
fn reads_end(alloc: Global, text: &[u8]) -> bool {
    match read_message(alloc, text) {
        Ok(Message::Stop { id, moves: None }) => id.as_slice() == b"t".as_slice(),
        Ok(Message::Abort { id }) => id.as_slice() == b"t".as_slice(),
        _ => false,
    }
}

#[test]
fn messages_are_read_back(rt: HostRuntime) -> Result<(), Fail> {
    holds(&rt, reads_start(rt.alloc())?, "START");
    holds(&rt, reads_play(rt.alloc())?, "PLAY");
    holds(&rt, reads_end(rt.alloc(), b"(STOP t NIL)"), "STOP");
    holds(&rt, reads_end(rt.alloc(), b"(ABORT t)"), "ABORT");
    Ok(())
}

#[test]
fn faulty_messages_are_named(rt: HostRuntime) {
    let table = [
        ("(START t solo () 0 1)", MessageFault::BadClock),
        ("(PLAY t)", MessageFault::BadMessage),
        ("(PLAY", MessageFault::Unreadable),
    ];
    for (text, fault) in table {
        let found = read_message(rt.alloc(), text.as_bytes()).err();
        holds(&rt, found == Some(fault), text);
    }
}

#[test]
fn answers_to_info_are_read(rt: HostRuntime) -> Result<(), Fail> {
    let table = [
        ("AVAILABLE", Info::Available),
        ("ready", Info::Ready),
        ("((name zed) (status Busy))", Info::Busy),
        ("(available)", Info::Unknown),
        ("(status busy)", Info::Unknown),
        ("(", Info::Unknown),
        ("", Info::Unknown),
    ];
    for (text, info) in table {
        let found = read_info(rt.alloc(), text.as_bytes())?;
        holds(&rt, found == info, text);
    }
    Ok(())
}
