//! A text line of a schedule: its words, and the match in it.
ghost use Rattle.std.specs.Prelude.{◌≡◌, ◌==◌, IfOk, IfSome, is_some, length, map, not};
ghost use Rattle.std.specs.List.{AllZip};
ghost use Rattle.std.specs.Result.{result_err};
ghost use Rattle.match_plans.specs.Addresses.{IsAddress, is_player};
ghost use Rattle.match_plans.specs.Schedules.{IsPlanned, clock_of, line_words, player_fault, is_blank_or_comment, word_fault};

use crate::addresses::{PlayerAddress, player_address};
use crate::plan::MatchPlan;
use crate::schedule_fault::LineFault;
use game_core::numeral::plain_number;
use std::alloc::{AllocError, Global};
use std::str;

/// The words of a text line: the parts between spaces and tabs that are not empty.
pub(crate) fn words<'a>(alloc: Global, line: &'a [u8]) -> Result<Vec<&'a [u8]>, AllocError>
    ensures { IfOk result (λ v. map (λ w. w.now) v.items ≡ line_words line.now) }
{
    line.split(|b| *b == b' ' || *b == b'\t')
        .filter(
            |word|
                ensures { result ≡ not (length word.now.now == 0) }
            { !word.is_empty() },
        )
        .collect(alloc)
}

/// Whether a text line with these words is ignored: it has no words, or the first one begins with `#`.
pub(crate) fn is_blank_or_comment(words: &[&[u8]]) -> bool
    ensures { result ≡ is_blank_or_comment (map (λ w. w.now) words.now) }
{
    match words.first() {
        Some(word) => word.first() == Some(&b'#'),
        None => true,
    }
}

/// The largest number of seconds in a schedule. Clocks have a smaller limit (`is_clock` of `desk_calls`).
const MAX_WORD_SECONDS: usize = 4_294_967_295;

/// The number of seconds in a word. It may be out of a clock's range.
fn clock(word: &[u8]) -> Option<u32>
    ensures { result ≡ clock_of word.now }
{
    Some(plain_number(word, MAX_WORD_SECONDS)? as u32)
}

fn player(word: &[u8]) -> Option<PlayerAddress<'_>>
    ensures address { IfSome result (IsAddress word.now) }
    ensures taken { is_some result ≡ is_player word.now }
{
    let Ok(word) = str::from_utf8(word) else {
        return None;
    };
    player_address(word)
}

/// The number of the first player's word, counted from 1.
const FIRST_PLAYER: u64 = 4;

/// The addresses in the players' words. The inner error is the error of the first word that is not an address.
fn players<'a>(
    alloc: Global,
    words: &[&'a [u8]],
) -> Result<Result<Vec<PlayerAddress<'a>>, LineFault>, AllocError>
    ensures addresses { IfOk result (λ found. IfOk found (λ players. AllZip IsAddress (map (λ w. w.now) words.now) players.items)) }
    ensures fault { IfOk result (λ found. result_err found ≡ player_fault 4 (map (λ w. w.now) words.now)) }
{
    let mut players = Vec::with_capacity(alloc, words.len())?;
    for word in words {
        let Some(player) = player(word) else {
            let number = players.len() as u64 + FIRST_PLAYER;
            return Ok(Err(LineFault::NoPlayer(number)));
        };
        players.push(player)?;
    }
    Ok(Ok(players))
}

/// The match in the words of a text line. If the words are not `ID START PLAY NAME@HOST:PORT ..`, the inner error is the
/// first error in them.
pub(crate) fn planned_match<'a>(
    alloc: Global,
    words: &[&'a [u8]],
    strikes: u8,
) -> Result<Result<MatchPlan<'a>, LineFault>, AllocError>
    ensures planned { IfOk result (λ found. IfOk found (λ plan. IsPlanned strikes (map (λ w. w.now) words.now) plan)) }
    ensures fault { IfOk result (λ found. result_err found ≡ word_fault (map (λ w. w.now) words.now)) }
{
    let [id, start, play, _, ..] = words else {
        return Ok(Err(LineFault::TooFewWords));
    };
    let Ok(id) = str::from_utf8(id) else {
        return Ok(Err(LineFault::NoId));
    };
    let Some(start) = clock(start) else {
        return Ok(Err(LineFault::NoClock(2)));
    };
    let Some(play) = clock(play) else {
        return Ok(Err(LineFault::NoClock(3)));
    };
    let players = match players(alloc, &words[3..])? {
        Ok(players) => players,
        Err(fault) => return Ok(Err(fault)),
    };
    Ok(Ok(MatchPlan {
        id,
        start,
        play,
        strikes,
        players,
    }))
}
