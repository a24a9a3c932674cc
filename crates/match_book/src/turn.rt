//! Turns, and how open answers become a turn.
ghost use Rattle.std.specs.Prelude.{◌≡◌, ◌++◌, if◌then◌else◌, All, IfOk, IfSome, OnOk, map, count_by, length, option_to_list};
ghost use Rattle.match_book.specs.Judgement.{substitute};
ghost use Rattle.match_book.specs.declared.judgement.Substitution.TheVariants.{Retired};
ghost use Rattle.match_book.specs.Roles.{of_each_role};
ghost use Rattle.match_book.specs.MatchValue.{is_error};
ghost use Rattle.match_book.specs.Internal.OpenAnswers.{AreMoves, kept_part};
ghost use Rattle.match_book.specs.Steps.{turn_of};

use crate::judgement::{Judgement, Substitution, substitute};
use crate::retirement::{RoleStrikes, is_retired_at};
use crate::role_moves::RoleMoves;
use game_core::{Game, Joint, Text, Texts};
use std::alloc::{AllocError, Global};

/// The joint move of a turn, and the error of each move, in the order of the roles.
#[derive(Drop)]
pub struct Turn<M> {
    pub moves: Joint<M>,
    pub errors: Texts,
}

fn copy_judgement<G: Game>(
    alloc: Global,
    game: &G,
    judged: &Judgement<G::Move>,
) -> Result<Judgement<G::Move>, AllocError>
    requires { (G.rules game.now).IsMove judged.now.taken }
    ensures { IfOk result (λ j. j ≡ judged.now) }
{
    let taken = game.copy_move(alloc, &judged.taken)?;
    let error = judged.error.copy(alloc)?;
    Ok(Judgement { taken, error })
}

/// A role's part of the turn: a copy of its open answer, or its first legal move if it is retired.
fn part_of<G: Game>(
    alloc: Global,
    game: &G,
    answer: &Option<Judgement<G::Move>>,
    is_retired: bool,
    moves: &[G::Move],
) -> Result<Option<Judgement<G::Move>>, AllocError>
    requires answer { IfSome answer.now (λ j. (G.rules game.now).IsMove j.taken) }
    requires moves { All (λ m. (G.rules game.now).IsMove m) moves.now }
    ensures { IfOk result (λ o. o ≡ (if is_retired then substitute moves.now Retired else answer.now)) }
{
    if is_retired {
        return substitute(alloc, game, moves, &Substitution::Retired);
    }
    match answer {
        Some(judged) => Ok(Some(copy_judgement(alloc, game, judged)?)),
        None => Ok(None),
    }
}

/// Each role's part of the turn.
pub fn parts_of<G: Game>(
    alloc: Global,
    game: &G,
    answers: &[Option<Judgement<G::Move>>],
    strikes: &[RoleStrikes],
    legal: &[RoleMoves<G::Move>],
) -> Result<Vec<Option<Judgement<G::Move>>>, AllocError>
    requires answers { AreMoves (G.rules game.now) answers.now }
    requires strikes { length strikes.now ≡ length answers.now }
    requires one_list { length legal.now ≡ length answers.now }
    requires legal { All (λ l. All (λ m. (G.rules game.now).IsMove m) l) legal.now }
    ensures { IfOk result (λ v. v.items ≡ of_each_role (length answers.now) (kept_part answers.now strikes.now legal.now)) }
{
    let mut parts = Vec::with_capacity(alloc, answers.len())?;
    for role in 0..answers.len() {
        let is_retired = is_retired_at(strikes, role);
        let moves = legal[role].as_slice();
        let part = part_of(alloc, game, &answers[role], is_retired, moves)?;
        parts.push(part)?;
    }
    Ok(parts)
}

/// Adds a judgement to the turn, if there is one.
fn push_part<M: Drop>(
    part: Option<Judgement<M>>,
    moves: &mut Vec<M>,
    errors: &mut Vec<Text>,
) -> Result<(), AllocError>
    ensures moves { OnOk result (moves.new.items ≡ moves.old.items ++ map (λ j. j.taken) (option_to_list part)) }
    ensures errors { OnOk result (errors.new.items ≡ errors.old.items ++ map (λ j. j.error) (option_to_list part)) }
{
    if let Some(judged) = part {
        moves.push(judged.taken)?;
        errors.push(judged.error)?;
    }
    Ok(())
}

/// Makes a turn of these judgements.
pub fn turn_of<M: Drop>(
    alloc: Global,
    parts: Vec<Option<Judgement<M>>>,
) -> Result<Turn<M>, AllocError>
    ensures { IfOk result (λ t. t ≡ turn_of parts.items) }
{
    let mut moves = Vec::with_capacity(alloc, parts.len())?;
    let mut errors = Vec::with_capacity(alloc, parts.len())?;
    for part in parts {
        push_part(part, &mut moves, &mut errors)?;
    }
    Ok(Turn {
        moves: Joint { moves },
        errors: Texts { items: errors },
    })
}

/// The number of errors that are not empty.
pub fn count_errors(errors: &[Text]) -> usize
    ensures { result ≡ count_by is_error errors.now }
{
    let mut count = 0;
    for error in errors {
        if !error.as_slice().is_empty() {
            count += 1;
        }
    }
    count
}

/// The texts of these moves.
pub fn move_texts<G: Game>(alloc: Global, game: &G, moves: &[G::Move]) -> Result<Texts, AllocError>
    requires { All (λ m. (G.rules game.now).IsMove m) moves.now }
    ensures { IfOk result (λ t. t ≡ map (G.rules game.now).move_text moves.now) }
{
    let mut items = Vec::with_capacity(alloc, moves.len())?;
    for taken in moves {
        items.push(Text::from_slice(alloc, game.move_text(taken))?)?;
    }
    Ok(Texts { items })
}
