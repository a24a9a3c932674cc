//! Judges answers in play.
ghost use Rattle.std.specs.Prelude.{◌≡◌, IfOk, All, Some, []};
ghost use Rattle.match_book.specs.AnswerReading.{answer_reading};
ghost use Rattle.desk_calls.specs.Answers.{answer_lent};
ghost use Rattle.match_book.specs.Judgement.{error_text, substitute, move_named, IsPlaceOf, taken_or_substituted, judged_reading, judged_answer};

use crate::answer::Mark;
use crate::answer_text::{MAX_ANSWER, read_answer};
use desk_calls::LentAnswer;
use game_core::{Game, Text};
use kif_text::laws::folded_text_reads_back;
use std::alloc::{AllocError, Global};

/// The error of an answer that is too long, or that does not spell exactly one expression.
pub const UNREADABLE: &[u8] = b"IL ?";

/// The prefix of the error of an answer that is not a legal move. The text of the answer follows it.
pub const ILLEGAL_PREFIX: &[u8] = b"IL ";

/// The error of a retired role's move.
pub const RETIRED: &[u8] = b"RT";

/// A move with its error, which is empty if an answer named the move.
#[derive(Drop)]
pub struct Judgement<M> {
    pub taken: M,
    pub error: Text,
}

/// Why a turn has the first legal move instead of the answer.
#[derive(Drop)]
pub enum Substitution {
    TimeOut,
    ConnectionError,
    /// The answer is too long, or does not spell exactly one expression.
    Unreadable,
    /// The answer spells this text, but no legal move has this text.
    Illegal(Text),
    /// The role is retired, so the match did not ask it.
    Retired,
}

impl Substitution {
    /// The error that the match records with the move.
    fn error(&self, alloc: Global) -> Result<Text, AllocError>
        ensures { IfOk result (λ t. t ≡ error_text self.now) }
    {
        match self {
            Substitution::TimeOut => Text::from_slice(alloc, Mark::TimeOut.text()),
            Substitution::ConnectionError => Text::from_slice(alloc, Mark::ConnectionError.text()),
            Substitution::Unreadable => Text::from_slice(alloc, UNREADABLE),
            Substitution::Retired => Text::from_slice(alloc, RETIRED),
            Substitution::Illegal(read) => {
                let mut bytes = Vec::from_slice(alloc, ILLEGAL_PREFIX)?;
                bytes.extend_from_slice(read.as_slice())?;
                Ok(Text { bytes })
            }
        }
    }
}

/// The first of these moves with the error for this reason, or `None` if there are no moves.
pub fn substitute<G: Game>(
    alloc: Global,
    game: &G,
    moves: &[G::Move],
    why: &Substitution,
) -> Result<Option<Judgement<G::Move>>, AllocError>
    requires { All (λ m. (G.rules game.now).IsMove m) moves.now }
    ensures { IfOk result (λ o. o ≡ substitute moves.now why.now) }
{
    if moves.is_empty() {
        return Ok(None);
    }
    let taken = game.copy_move(alloc, &moves[0])?;
    let error = why.error(alloc)?;
    Ok(Some(Judgement { taken, error }))
}

/// The index of the first move with this text.
pub fn place_of<G: Game>(game: &G, moves: &[G::Move], wanted: &[u8]) -> Option<usize>
    requires { All (λ m. (G.rules game.now).IsMove m) moves.now }
    ensures { IsPlaceOf (G.rules game.now) moves.now wanted.now result }
{
    for (place, taken) in moves.iter().enumerate() {
        if game.move_text(taken) == wanted {
            return Some(place);
        }
    }
    None
}

/// Judges an answer that names this move.
fn take_named<G: Game>(
    alloc: Global,
    game: &G,
    named: &G::Move,
) -> Result<Option<Judgement<G::Move>>, AllocError>
    requires { (G.rules game.now).IsMove named.now }
    ensures { IfOk result (λ o. o ≡ Some (record { taken = named.now; error = [] })) }
{
    let taken = game.copy_move(alloc, named)?;
    let error = Text {
        bytes: Vec::new(alloc),
    };
    Ok(Some(Judgement { taken, error }))
}

/// Judges an answer with this reading: takes the move with this text, or else the first move.
fn judge_reading<G: Game>(
    alloc: Global,
    game: &G,
    moves: &[G::Move],
    read: Text,
) -> Result<Option<Judgement<G::Move>>, AllocError>
    requires { All (λ m. (G.rules game.now).IsMove m) moves.now }
    ensures { IfOk result (λ o. o ≡ taken_or_substituted moves.now read (move_named (G.rules game.now) moves.now read)) }
{
    match place_of(game, moves, read.as_slice()) {
        Some(place) => take_named(alloc, game, &moves[place]),
        None => substitute(alloc, game, moves, &Substitution::Illegal(read)),
    }
}

/// Judges an answer with this text. Most answers are the canonical text of a legal move. So the function first compares
/// the text with the legal moves, and reads it only if no move matches.
fn judge_text<G: Game>(
    alloc: Global,
    game: &G,
    moves: &[G::Move],
    answered: &[u8],
) -> Result<Option<Judgement<G::Move>>, AllocError>
    requires { All (λ m. (G.rules game.now).IsMove m) moves.now }
    ensures { IfOk result (λ o. o ≡ judged_reading (G.rules game.now) moves.now (answer_reading answered.now)) }
{
    folded_text_reads_back();
    if answered.len() <= MAX_ANSWER {
        if let Some(place) = place_of(game, moves, answered) {
            return take_named(alloc, game, &moves[place]);
        }
    }
    match read_answer(alloc, answered)? {
        Some(read) => judge_reading(alloc, game, moves, read),
        None => substitute(alloc, game, moves, &Substitution::Unreadable),
    }
}

/// Judges an answer, given the role's legal moves. Returns `None` if there are no moves.
pub fn judge<G: Game>(
    alloc: Global,
    game: &G,
    moves: &[G::Move],
    answer: &LentAnswer<'_>,
) -> Result<Option<Judgement<G::Move>>, AllocError>
    requires { All (λ m. (G.rules game.now).IsMove m) moves.now }
    ensures { IfOk result (λ o. o ≡ judged_answer (G.rules game.now) moves.now (answer_lent answer.now)) }
{
    match answer {
        LentAnswer::Text(text) => judge_text(alloc, game, moves, text.as_slice()),
        LentAnswer::Silent => substitute(alloc, game, moves, &Substitution::TimeOut),
        LentAnswer::Broken => substitute(alloc, game, moves, &Substitution::ConnectionError),
    }
}
