//! Reads calls from the lines of scripts and call logs.
ghost use Rattle.std.specs.Prelude.{◌≡◌, IfOk, option_copied, option_map};
ghost use Rattle.std.specs.Result.{is_ok, result_ok};
ghost use Rattle.desk_text.specs.Words.{words, words_behind};
ghost use Rattle.desk_text.specs.ScriptLines.{call_of, call_of_words, first_name, first_number, first_reason, first_strikes, id_call, is_end, miss_call, miss_words, names_of, next_call, next_words, only_id, opening_call, opening_words, round_words, submit_call};

use crate::line_fault::{FaultKind, LineFault};
use crate::words::{first_piece, plain_number_up_to};
use desk_calls::Call;
use game_core::{Text, Texts};
use std::alloc::{AllocError, Global};

const MAX_NUMBER: u64 = 1_000_000_000;

/// The names and numbers that a call may have in a text.
#[derive(Clone, Copy)]
pub(crate) struct Grammar {
    pub(crate) has_empty_names: bool,
    /// The largest number.
    pub(crate) largest: u64,
}

/// In a call log, names may be empty, and numbers are limited only by their types.
pub(crate) const ACCOUNT: Grammar = Grammar {
    has_empty_names: true,
    largest: u64::MAX,
};

const SCRIPT: Grammar = Grammar {
    has_empty_names: false,
    largest: MAX_NUMBER,
};

/// Reads the first word as a name. Also returns the words after it.
fn name<'a>(
    grammar: Grammar,
    rest: Option<&'a [u8]>,
) -> Result<(&'a [u8], Option<&'a [u8]>), LineFault>
    ensures { option_map (λ r. (r.0.now, words_behind (option_copied r.1))) (result_ok result) ≡ first_name grammar (words_behind (option_copied rest.entry)) }
{
    let Some(text) = rest else {
        return Err(LineFault::at(b"", FaultKind::FewerWords));
    };
    let (word, rest) = first_piece(text, b' ');
    if word.is_empty() && !grammar.has_empty_names {
        return Err(LineFault::at(text, FaultKind::NoName));
    }
    Ok((word, rest))
}

/// Reads the first word as a number. Also returns the words after it.
fn number<'a>(
    grammar: Grammar,
    rest: Option<&'a [u8]>,
) -> Result<(u64, Option<&'a [u8]>), LineFault>
    ensures { option_map (λ r. (r.0, words_behind (option_copied r.1))) (result_ok result) ≡ first_number grammar (words_behind (option_copied rest.entry)) }
{
    let Some(text) = rest else {
        return Err(LineFault::at(b"", FaultKind::FewerWords));
    };
    let (word, rest) = first_piece(text, b' ');
    match plain_number_up_to(word, grammar.largest) {
        Some(number) => Ok((number, rest)),
        None => Err(LineFault::at(text, FaultKind::NoNumber(grammar.largest))),
    }
}

/// Returns whether the first word is `broken` rather than `silent`, and the words after it.
fn reason(rest: Option<&[u8]>) -> Result<(bool, Option<&[u8]>), LineFault>
    ensures { option_map (λ r. (r.0, words_behind (option_copied r.1))) (result_ok result) ≡ first_reason (words_behind (option_copied rest.entry)) }
{
    let Some(text) = rest else {
        return Err(LineFault::at(b"", FaultKind::FewerWords));
    };
    let (word, rest) = first_piece(text, b' ');
    if word == b"silent".as_slice() {
        Ok((false, rest))
    } else if word == b"broken".as_slice() {
        Ok((true, rest))
    } else {
        Err(LineFault::at(text, FaultKind::NoReason))
    }
}

/// Returns an error if any words are left.
fn end(rest: Option<&[u8]>) -> Result<(), LineFault>
    ensures { is_ok result ≡ is_end (words_behind (option_copied rest.entry)) }
{
    match rest {
        None => Ok(()),
        Some(text) => Err(LineFault::at(text, FaultKind::MoreWords)),
    }
}

fn round_words<'a>(
    grammar: Grammar,
    rest: Option<&'a [u8]>,
) -> Result<(&'a [u8], u64, u64, Option<&'a [u8]>), LineFault>
    ensures { option_map (λ r. (r.0.now, r.1, r.2, words_behind (option_copied r.3))) (result_ok result) ≡ round_words grammar (words_behind (option_copied rest.entry)) }
{
    let (id, rest) = name(grammar, rest)?;
    let (role, rest) = number(grammar, rest)?;
    let (round, rest) = number(grammar, rest)?;
    Ok((id, role, round, rest))
}

/// The number of strikes of a `strict` line, or 0 for an `open` line, and the words after it.
fn strikes<'a>(
    grammar: Grammar,
    is_strict: bool,
    rest: Option<&'a [u8]>,
) -> Result<(u64, Option<&'a [u8]>), LineFault>
    ensures { option_map (λ r. (r.0, words_behind (option_copied r.1))) (result_ok result) ≡ first_strikes grammar is_strict (words_behind (option_copied rest.entry)) }
{
    if is_strict {
        number(grammar, rest)
    } else {
        Ok((0, rest))
    }
}

/// The words of an `open` or `strict` line. The players' names are not yet separated.
#[derive(Clone, Copy)]
struct Opening<'a> {
    id: &'a [u8],
    game: u64,
    start: u64,
    play: u64,
    strikes: u64,
    players: Option<&'a [u8]>,
}

fn opening_words(
    grammar: Grammar,
    is_strict: bool,
    rest: Option<&[u8]>,
) -> Result<Opening<'_>, LineFault>
    ensures { option_map (λ o. (o.id.now, o.game, o.start, o.play, o.strikes, words_behind (option_copied o.players))) (result_ok result) ≡ opening_words grammar is_strict (words_behind (option_copied rest.entry)) }
{
    let (id, rest) = name(grammar, rest)?;
    let (game, rest) = number(grammar, rest)?;
    let (start, rest) = number(grammar, rest)?;
    let (play, rest) = number(grammar, rest)?;
    let (strikes, players) = strikes(grammar, is_strict, rest)?;
    Ok(Opening {
        id,
        game,
        start,
        play,
        strikes,
        players,
    })
}

/// Reads all words as names.
fn names(
    alloc: Global,
    grammar: Grammar,
    rest: Option<&[u8]>,
) -> Result<Result<Texts, LineFault>, AllocError>
    ensures { IfOk result (λ found. result_ok found ≡ names_of grammar (words_behind (option_copied rest.entry))) }
{
    let mut items = Vec::new(alloc);
    let mut rest = rest;
    while rest.is_some() {
        match name(grammar, rest) {
            Ok((word, more)) => {
                items.push(Text::from_slice(alloc, word)?)?;
                rest = more;
            }
            Err(fault) => return Ok(Err(fault)),
        }
    }
    Ok(Ok(Texts { items }))
}

fn opening_call(
    alloc: Global,
    grammar: Grammar,
    is_strict: bool,
    line: &[u8],
    rest: Option<&[u8]>,
) -> Result<Result<Call, LineFault>, AllocError>
    ensures { IfOk result (λ found. result_ok found ≡ opening_call grammar is_strict (words_behind (option_copied rest.entry))) }
{
    let opening = match opening_words(grammar, is_strict, rest) {
        Ok(opening) => opening,
        Err(fault) => return Ok(Err(fault)),
    };
    let most = u64::from(u32::MAX);
    if opening.start > most || opening.play > most || opening.strikes > most {
        return Ok(Err(LineFault::at(line, FaultKind::NoCall)));
    }
    let players = match names(alloc, grammar, opening.players)? {
        Ok(players) => players,
        Err(fault) => return Ok(Err(fault)),
    };
    Ok(Ok(Call::Open {
        id: Text::from_slice(alloc, opening.id)?,
        game: opening.game as usize,
        start: opening.start as u32,
        play: opening.play as u32,
        strikes: opening.strikes as u32,
        players,
    }))
}

fn next_words(grammar: Grammar, rest: Option<&[u8]>) -> Result<(&[u8], u64), LineFault>
    ensures { option_map (λ r. (r.0.now, r.1)) (result_ok result) ≡ next_words grammar (words_behind (option_copied rest.entry)) }
{
    let (id, rest) = name(grammar, rest)?;
    let (role, rest) = number(grammar, rest)?;
    end(rest)?;
    Ok((id, role))
}

fn next_call(
    alloc: Global,
    grammar: Grammar,
    rest: Option<&[u8]>,
) -> Result<Result<Call, LineFault>, AllocError>
    ensures { IfOk result (λ found. result_ok found ≡ next_call grammar (words_behind (option_copied rest.entry))) }
{
    match next_words(grammar, rest) {
        Ok((id, role)) => Ok(Ok(Call::Next {
            id: Text::from_slice(alloc, id)?,
            role: role as usize,
        })),
        Err(fault) => Ok(Err(fault)),
    }
}

/// The call of a `submit` line. Its text is the unchanged rest of the line, or empty if the line ends after the round.
fn submit_call(
    alloc: Global,
    grammar: Grammar,
    rest: Option<&[u8]>,
) -> Result<Result<Call, LineFault>, AllocError>
    ensures { IfOk result (λ found. result_ok found ≡ submit_call grammar (words_behind (option_copied rest.entry))) }
{
    match round_words(grammar, rest) {
        Ok((id, role, round, text)) => {
            let id = Text::from_slice(alloc, id)?;
            let text = Text::from_slice(alloc, text.unwrap_or(b""))?;
            Ok(Ok(Call::Submit {
                id,
                role: role as usize,
                round,
                text,
            }))
        }
        Err(fault) => Ok(Err(fault)),
    }
}

/// The id, the role and the round of a `miss` line, and whether its last word is `broken`.
fn miss_words(grammar: Grammar, rest: Option<&[u8]>) -> Result<(&[u8], u64, u64, bool), LineFault>
    ensures { option_map (λ r. (r.0.now, r.1, r.2, r.3)) (result_ok result) ≡ miss_words grammar (words_behind (option_copied rest.entry)) }
{
    let (id, role, round, rest) = round_words(grammar, rest)?;
    let (broken, rest) = reason(rest)?;
    end(rest)?;
    Ok((id, role, round, broken))
}

fn miss_call(
    alloc: Global,
    grammar: Grammar,
    rest: Option<&[u8]>,
) -> Result<Result<Call, LineFault>, AllocError>
    ensures { IfOk result (λ found. result_ok found ≡ miss_call grammar (words_behind (option_copied rest.entry))) }
{
    match miss_words(grammar, rest) {
        Ok((id, role, round, broken)) => Ok(Ok(Call::Miss {
            id: Text::from_slice(alloc, id)?,
            role: role as usize,
            round,
            broken,
        })),
        Err(fault) => Ok(Err(fault)),
    }
}

fn only_id(grammar: Grammar, rest: Option<&[u8]>) -> Result<&[u8], LineFault>
    ensures { option_map (λ id. id.now) (result_ok result) ≡ only_id grammar (words_behind (option_copied rest.entry)) }
{
    let (id, rest) = name(grammar, rest)?;
    end(rest)?;
    Ok(id)
}

fn id_call(
    alloc: Global,
    grammar: Grammar,
    is_abort: bool,
    rest: Option<&[u8]>,
) -> Result<Result<Call, LineFault>, AllocError>
    ensures { IfOk result (λ found. result_ok found ≡ id_call grammar is_abort (words_behind (option_copied rest.entry))) }
{
    let id = match only_id(grammar, rest) {
        Ok(id) => Text::from_slice(alloc, id)?,
        Err(fault) => return Ok(Err(fault)),
    };
    if is_abort {
        Ok(Ok(Call::Abort { id }))
    } else {
        Ok(Ok(Call::Query { id }))
    }
}

/// The call in a line with this grammar, or the first error in the line.
pub(crate) fn call_in(
    alloc: Global,
    grammar: Grammar,
    line: &[u8],
) -> Result<Result<Call, LineFault>, AllocError>
    ensures { IfOk result (λ found. result_ok found ≡ call_of_words grammar (words line.now)) }
{
    let (keyword, rest) = first_piece(line, b' ');
    if keyword == b"open".as_slice() {
        opening_call(alloc, grammar, false, line, rest)
    } else if keyword == b"strict".as_slice() {
        opening_call(alloc, grammar, true, line, rest)
    } else if keyword == b"next".as_slice() {
        next_call(alloc, grammar, rest)
    } else if keyword == b"submit".as_slice() {
        submit_call(alloc, grammar, rest)
    } else if keyword == b"miss".as_slice() {
        miss_call(alloc, grammar, rest)
    } else if keyword == b"query".as_slice() {
        id_call(alloc, grammar, false, rest)
    } else if keyword == b"abort".as_slice() {
        id_call(alloc, grammar, true, rest)
    } else {
        Ok(Err(LineFault::at(line, FaultKind::NoKeyword)))
    }
}

/// The call in a line of a script, or the first error in the line.
pub fn call_of(alloc: Global, line: &[u8]) -> Result<Result<Call, LineFault>, AllocError>
    ensures { IfOk result (λ found. result_ok found ≡ call_of line.now) }
{
    call_in(alloc, SCRIPT, line)
}
