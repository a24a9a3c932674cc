//! Checks one turn of a record in the state before it.
ghost use Rattle.std.specs.Prelude.{◌≡◌, ◌≢◌, ◌<◌, ◌↔◌, All, AllPairs, IfOk, IsTrue, List, MatchOption, ℕ, length};
ghost use Rattle.match_book.specs.LegalMoves.{AreLegalMoves};
ghost use Rattle.match_book.specs.RoleStrikes.{is_retired_in};
ghost use Rattle.match_book.specs.Judgement.{error_text};
ghost use Rattle.match_book.specs.Roles.{every_role};
ghost use Rattle.match_book.specs.declared.judgement.Substitution.TheVariants.{Illegal};
ghost use Rattle.record_reading.specs.RecordParts.{IsErrorText};
ghost use Rattle.record_check.specs.Replaying.{GoesOn, DeniesOne};
ghost use Rattle.record_check.specs.Internal.ReplaySteps.{IsRecorded, IsJointAnswer, IsTurnAnswer};

use game_core::{Game, Joint, Text};
use match_book::{
    ILLEGAL_PREFIX, RETIRED, RoleMoves, RoleStrikes, count_retired, is_retired_at, legal_moves,
    place_of,
};
use record_reading::VerifyFault;
use std::alloc::{AllocError, Global};

/// A turn of a record: its number, counted from 0, and each role's move and error.
#[derive(Clone, Copy)]
pub struct RecordedTurn<'a> {
    pub number: usize,
    pub moves: &'a [Text],
    pub errors: &'a [Text],
}

#[derive(Drop)]
enum RecordedMove<M> {
    /// A legal move with an error that it can have.
    Right(M),
    /// No legal move has the text.
    NoMove,
    /// A legal move with an error that it cannot have.
    WrongError,
    /// A legal move with an error that is possible for the move, but not for this role: the error says that the role is
    /// retired and it is not, or the role is retired and the error does not say so.
    WrongRetired,
}

/// The answer that the error calls illegal, if there is one.
fn denied_answer(error: &[u8]) -> Option<&[u8]>
    ensures { MatchOption result ((x : List ℕ) → error.now ≢ error_text (Illegal x)) (λ x. error.now ≡ error_text (Illegal x.now)) }
{
    error.strip_prefix(ILLEGAL_PREFIX)
}

/// Whether the error says that the answer was the text of one of these moves.
fn denies_one<G: Game>(game: &G, moves: &[G::Move], error: &[u8]) -> bool
    requires { All (λ m. (G.rules game.now).IsMove m) moves.now }
    ensures { IsTrue result ↔ DeniesOne (G.rules game.now) moves.now error.now }
{
    match denied_answer(error) {
        Some(read) => place_of(game, moves, read).is_some(),
        None => false,
    }
}

/// Checks a recorded move with this text and error, for a role with these legal moves. `is_retired` says whether the role
/// is retired.
fn recorded_move<G: Game>(
    alloc: Global,
    game: &G,
    is_retired: bool,
    moves: &[G::Move],
    text: &[u8],
    error: &[u8],
) -> Result<RecordedMove<G::Move>, AllocError>
    requires moves { All (λ m. (G.rules game.now).IsMove m) moves.now }
    requires differ { AllPairs (λ m n. m ≢ n) moves.now }
    requires error { IsErrorText error.now }
    ensures { IfOk result (λ o. IsRecorded (G.rules game.now) is_retired moves.now text.now error.now o) }
{
    let Some(place) = place_of(game, moves, text) else {
        return Ok(RecordedMove::NoMove);
    };
    if !error.is_empty() {
        if place > 0 {
            return Ok(RecordedMove::WrongError);
        }
        if denies_one(game, moves, error) {
            return Ok(RecordedMove::WrongError);
        }
    }
    if is_retired != (error == RETIRED) {
        return Ok(RecordedMove::WrongRetired);
    }
    Ok(RecordedMove::Right(game.copy_move(alloc, &moves[place])?))
}

fn are_all_retired(strikes: &[RoleStrikes]) -> bool
    ensures { result ≡ every_role (length strikes.now) (is_retired_in strikes.now) }
{
    count_retired(strikes) == strikes.len()
}

/// The legal moves of each role, or `None` if the state is terminal, a role has no legal move, or all roles are retired.
fn next_moves<G: Game>(
    alloc: Global,
    game: &G,
    state: &G::State,
    strikes: &[RoleStrikes],
) -> Result<Option<Vec<RoleMoves<G::Move>>>, AllocError>
    requires state { (G.rules game.now).IsState state.now }
    requires strikes { length strikes.now ≡ (G.rules game.now).roles }
    ensures { IfOk result (λ o. MatchOption o (¬ GoesOn (G.rules game.now) (is_retired_in strikes.now) state.now)
        (λ lists. GoesOn (G.rules game.now) (is_retired_in strikes.now) state.now × AreLegalMoves (G.rules game.now) state.now lists.items)) }
{
    if are_all_retired(strikes) {
        return Ok(None);
    }
    if game.terminal(alloc, state)? {
        return Ok(None);
    }
    match legal_moves(alloc, game, state)? {
        (None, lists) => Ok(Some(lists)),
        (Some(_), _) => Ok(None),
    }
}

/// The joint move of the turn, or the error of the lowest role that is wrong. `strikes` has the roles' strikes after the
/// earlier turns. Computes each role's legal moves only once, because this may take long.
fn recorded_joint<G: Game>(
    alloc: Global,
    game: &G,
    state: &G::State,
    strikes: &[RoleStrikes],
    turn: RecordedTurn<'_>,
) -> Result<Joint<G::Move>, VerifyFault>
    requires state { (G.rules game.now).IsState state.now }
    requires moves { length turn.moves.now ≡ (G.rules game.now).roles }
    requires errors { length turn.errors.now ≡ (G.rules game.now).roles }
    requires error_texts { All IsErrorText turn.errors.now }
    requires strikes { length strikes.now ≡ (G.rules game.now).roles }
    ensures { IsJointAnswer (G.rules game.now) (is_retired_in strikes.now) state.now turn.entry.moves.now turn.entry.errors.now turn.entry.number result }
{
    let Some(lists) = next_moves(alloc, game, state, strikes)? else {
        return Err(VerifyFault::WrongEnd);
    };
    let roles = game.roles();
    let mut joint = Vec::with_capacity(alloc, roles)?;
    for role in 0..roles {
        let legal = lists[role].as_slice();
        let text = turn.moves[role].as_slice();
        let error = turn.errors[role].as_slice();
        let is_retired = is_retired_at(strikes, role);
        match recorded_move(alloc, game, is_retired, legal, text, error)? {
            RecordedMove::Right(taken) => joint.push(taken)?,
            RecordedMove::NoMove => return Err(VerifyFault::Illegal(turn.number, role)),
            RecordedMove::WrongError => return Err(VerifyFault::NotFirst(turn.number, role)),
            RecordedMove::WrongRetired => return Err(VerifyFault::WrongRetired(turn.number, role)),
        }
    }
    Ok(Joint { moves: joint })
}

/// The state after the turn, or the first error of the turn. `strikes` has the roles' strikes after the earlier turns.
pub fn replay_turn<G: Game>(
    alloc: Global,
    game: &G,
    state: &G::State,
    strikes: &[RoleStrikes],
    turn: RecordedTurn<'_>,
) -> Result<G::State, VerifyFault>
    requires state { (G.rules game.now).IsState state.now }
    requires moves { length turn.moves.now ≡ (G.rules game.now).roles }
    requires errors { length turn.errors.now ≡ (G.rules game.now).roles }
    requires error_texts { All IsErrorText turn.errors.now }
    requires strikes { length strikes.now ≡ (G.rules game.now).roles }
    ensures { IsTurnAnswer (G.rules game.now) (is_retired_in strikes.now) state.now turn.entry.moves.now turn.entry.errors.now turn.entry.number result }
{
    let joint = recorded_joint(alloc, game, state, strikes, turn)?;
    Ok(game.next(alloc, state, joint.as_slice())?)
}
