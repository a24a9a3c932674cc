//! Reads messages from their texts.
ghost use Rattle.std.specs.Prelude.{◌≡◌, map, option_copied, option_map};
ghost use Rattle.game_core.specs.Bytes.{lower};
ghost use Rattle.kif_text.specs.View.{view, views};
ghost use Rattle.match_messages.specs.MessageReading.{is_word, id_in, members_in, moves_in, info_in, start_of, start_in, id_and_moves, abort_of, abort_in, message_of, message_in, message_reading, Gives};
ghost use Rattle.match_messages.specs.Internal.MessageParts.{GivesMoves, GivesIdAndMoves};

use crate::clock::clock_in;
use crate::messages::{Message, MessageFault};
use desk_calls::is_name;
use game_core::Text;
use kif_text::{Expr, KifFault, folded_copies, folded_copy, read_one};
use std::alloc::Global;

/// Whether this is the word `small`, in upper or lower case. `small` is in lower case.
fn is_word(expr: &Expr, small: &[u8]) -> bool
    requires { map lower small.now ≡ small.now }
    ensures { result ≡ is_word small.now (view expr.now) }
{
    match expr {
        Expr::Atom(word) => word.as_slice().eq_ignore_ascii_case(small),
        Expr::List(_) => false,
    }
}

/// The lawful id in an expression.
fn id_in(expr: &Expr) -> Option<&Text>
    ensures { option_copied result ≡ id_in (view expr.now) }
{
    match expr {
        Expr::Atom(word) => {
            if is_name(word.as_slice()) {
                Some(word)
            } else {
                None
            }
        }
        Expr::List(_) => None,
    }
}

/// The members, if the expression is a list.
fn members_in(expr: &Expr) -> Option<&[Expr]>
    ensures { option_map (λ v. views v.now) result ≡ members_in (view expr.now) }
{
    match expr {
        Expr::Atom(_) => None,
        Expr::List(members) => Some(members.as_slice()),
    }
}

/// The moves in an expression: `None` for `NIL` and for the empty list.
#[tactic(auto, using(crate::proofs::Forms::moves_listed))]
fn moves_in(alloc: Global, expr: &Expr) -> Result<Option<Vec<Expr>>, MessageFault>
    ensures { GivesMoves result (moves_in (view expr.now)) }
{
    let Some(moves) = members_in(expr) else {
        return if is_word(expr, b"nil") {
            Ok(None)
        } else {
            Err(MessageFault::BadMessage)
        };
    };
    if moves.is_empty() {
        return Ok(None);
    }
    Ok(Some(folded_copies(alloc, moves)?))
}

/// START with an id, a role, rules and both clocks. Checks the clocks last.
fn start_of(
    alloc: Global,
    id: Option<&Text>,
    role: &Expr,
    rules: Option<&[Expr]>,
    start: Option<u32>,
    play: Option<u32>,
) -> Result<Message, MessageFault>
    ensures { Gives result (start_of (option_copied id.entry) (view role.now) (option_map (λ v. views v.now) rules.entry) start play) }
{
    let (Some(id), Some(rules)) = (id, rules) else {
        return Err(MessageFault::BadMessage);
    };
    let (Some(start), Some(play)) = (start, play) else {
        return Err(MessageFault::BadClock);
    };
    Ok(Message::Start {
        id: id.copy(alloc)?,
        role: folded_copy(alloc, role)?,
        rules: folded_copies(alloc, rules)?,
        start,
        play,
    })
}

/// `(START id role (sentence ..) start play)`
fn start_in(alloc: Global, members: &[Expr]) -> Result<Message, MessageFault>
    ensures { Gives result (start_in (views members.now)) }
{
    match members {
        [id, role, rules, start, play] => start_of(
            alloc,
            id_in(id),
            role,
            members_in(rules),
            clock_in(start),
            clock_in(play),
        ),
        _ => Err(MessageFault::BadMessage),
    }
}

/// The id and the moves of PLAY or STOP.
fn id_and_moves(alloc: Global, members: &[Expr]) -> Result<(Text, Option<Vec<Expr>>), MessageFault>
    ensures { GivesIdAndMoves result (id_and_moves (views members.now)) }
{
    let [id, moves] = members else {
        return Err(MessageFault::BadMessage);
    };
    let Some(id) = id_in(id) else {
        return Err(MessageFault::BadMessage);
    };
    let moves = moves_in(alloc, moves)?;
    Ok((id.copy(alloc)?, moves))
}

/// ABORT with an id.
fn abort_of(alloc: Global, id: Option<&Text>) -> Result<Message, MessageFault>
    ensures { Gives result (abort_of (option_copied id.entry)) }
{
    match id {
        Some(id) => Ok(Message::Abort {
            id: id.copy(alloc)?,
        }),
        None => Err(MessageFault::BadMessage),
    }
}

/// `(ABORT id)`
fn abort_in(alloc: Global, members: &[Expr]) -> Result<Message, MessageFault>
    ensures { Gives result (abort_in (views members.now)) }
{
    match members {
        [id] => abort_of(alloc, id_in(id)),
        _ => Err(MessageFault::BadMessage),
    }
}

/// `(INFO)`
fn info_in(members: &[Expr]) -> Result<Message, MessageFault>
    ensures { Gives result (info_in (views members.now)) }
{
    match members {
        [] => Ok(Message::Info),
        _ => Err(MessageFault::BadMessage),
    }
}

/// The message with this keyword and these members after it.
fn message_of(alloc: Global, keyword: &Expr, rest: &[Expr]) -> Result<Message, MessageFault>
    ensures { Gives result (message_of (view keyword.now) (views rest.now)) }
{
    if is_word(keyword, b"info") {
        info_in(rest)
    } else if is_word(keyword, b"start") {
        start_in(alloc, rest)
    } else if is_word(keyword, b"play") {
        let (id, moves) = id_and_moves(alloc, rest)?;
        Ok(Message::Play { id, moves })
    } else if is_word(keyword, b"stop") {
        let (id, moves) = id_and_moves(alloc, rest)?;
        Ok(Message::Stop { id, moves })
    } else if is_word(keyword, b"abort") {
        abort_in(alloc, rest)
    } else {
        Err(MessageFault::BadMessage)
    }
}

/// Reads an expression. The atom `INFO` means the list `(INFO)`.
fn message_in(alloc: Global, expr: &Expr) -> Result<Message, MessageFault>
    ensures { Gives result (message_in (view expr.now)) }
{
    let Some(members) = members_in(expr) else {
        return if is_word(expr, b"info") {
            Ok(Message::Info)
        } else {
            Err(MessageFault::BadMessage)
        };
    };
    match members.split_first() {
        Some((keyword, rest)) => message_of(alloc, keyword, rest),
        None => Err(MessageFault::BadMessage),
    }
}

/// Reads a message. Keywords and `NIL` may be in upper or lower case.
pub fn read_message(alloc: Global, text: &[u8]) -> Result<Message, MessageFault>
    ensures { Gives result (message_reading text.now) }
{
    match read_one(alloc, text) {
        Ok(expr) => message_in(alloc, &expr),
        Err(KifFault::Memory) => Err(MessageFault::Memory),
        Err(_) => Err(MessageFault::Unreadable),
    }
}
