//! Laws about lawful matches and the answers in them, for every game.
//!
//! A law without arguments is about every game of a type: name the type when you call it.
ghost use Rattle.match_book.specs.Laws.{NewMatchIsLawful, AnswersKeepLawful, AbortKeepsLawful, RecordedMovesAreLegal, NoErrorMeansNamed, AnswersInPlay, AnswersOutOfPlay, TakenForTheRound, OwedAnswersAreTaken, TurnsLeadToStates, TurnsHaveMoves, OneMoreTurn, StrikesBegin, StrikesOfOneMore, FewStrikes, StartingMeans, PlayingMeans, StoppingMeans, BegunRoundsAreOpen, RoundsEnd, NoneIsAnswered, OwedIsAnswered, OthersAreUntouched, AllAreAnswered, ReadingsAreFolded};
ghost use Rattle.match_book.specs.Lawful.{IsLawfulMatch};

use crate::matches::Match;
use game_core::Game;
use kif_text::laws::{reading_is_proper, reading_under_double};

/// A match without any answer is lawful.
pub fn new_match_is_lawful<G: Game>()
    ensures { (game : G) → NewMatchIsLawful (G.rules game) }
{}

/// A lawful match stays lawful after any answer of any role for any round.
pub fn answers_keep_lawful<G: Game>()
    ensures { (game : G) → AnswersKeepLawful (G.rules game) }
{
    readings_are_folded();
}

/// A lawful match stays lawful after a request to abort it.
pub fn abort_keeps_lawful<G: Game>()
    ensures { (game : G) → AbortKeepsLawful (G.rules game) }
{}

/// The recorded joint moves of a lawful match are legal turns of the game.
pub fn recorded_moves_are_legal<G: Game>()
    ensures { (game : G) → RecordedMovesAreLegal (G.rules game) }
{}

/// A judgement has an empty error if and only if the answer names the move that is taken.
pub fn no_error_means_named<G: Game>()
    ensures { (game : G) → NoErrorMeansNamed (G.rules game) }
{}

/// An answer that a match takes in play stays open, or the match records it with the others as one turn. The turn has the
/// part of each role at the role's index.
pub fn answers_in_play<G: Game>()
    ensures { (game : G) → AnswersInPlay (G.rules game) }
{
    readings_are_folded();
}

/// Outside of play, no answer changes the turns or the open answers.
pub fn answers_out_of_play<G: Game>()
    ensures { (game : G) → AnswersOutOfPlay (G.rules game) }
{}

/// A match takes answers only for the present round.
pub fn taken_for_the_round<G: Game>()
    ensures { (game : G) → TakenForTheRound (G.rules game) }
{}

/// A match takes an answer that a role owes, unless it runs out of memory.
pub fn owed_answers_are_taken<G: Game>()
    ensures { (game : G) → OwedAnswersAreTaken (G.rules game) }
{}

/// Lawful turns lead to a state of the game, and have only moves of the game.
pub fn lawful_turns_are_of_the_game<G: Game>()
    ensures states { (game : G) → TurnsLeadToStates (G.rules game) }
    ensures moves { (game : G) → TurnsHaveMoves (G.rules game) }
{}

/// Lawful turns and one more turn that may follow them are lawful, and lead to the next state.
pub fn one_more_turn<G: Game>()
    ensures { (game : G) → OneMoreTurn (G.rules game) }
{}

/// The retired roles, and the number of replaced moves of each role in a row, can be computed turn by turn from the errors
/// of the turns.
pub fn strikes_follow_turns<G: Game>()
    ensures begin { StrikesBegin G.Move }
    ensures more { StrikesOfOneMore G.Move }
    ensures few { FewStrikes G.Move }
{}

/// A match is starting, playing or stopping if and only if its marks, state and turns meet these conditions.
pub fn stages_are_settled<G: Game>()
    ensures starting { (game : G) → StartingMeans (G.rules game) }
    ensures playing { (game : G) → PlayingMeans (G.rules game) }
    ensures stopping { (game : G) → StoppingMeans (G.rules game) }
{}

/// When a round of play begins, some role has not answered.
pub fn begun_rounds_are_open<G: Game>()
    ensures { (game : G) → BegunRoundsAreOpen (G.rules game) }
{}

/// A match is over once every role has answered in 10,002 rounds: one for START, 10,000 for turns, and one for STOP or
/// ABORT.
pub fn rounds_come_to_an_end<G: Game>()
    ensures { (game : G) → RoundsEnd (G.rules game) }
{
    readings_are_folded();
}

/// At first, a role has answered no message. Each answer of the role to a message that the match owes to it adds exactly
/// this message. Answers of other roles change neither the answered messages nor a message that the match owes to the role.
/// Once a match is over, the role has answered all its messages: START, PLAY before each turn until the role is retired,
/// and STOP or ABORT.
pub fn messages_are_answered<G: Game>()
    ensures begin { (game : G) → NoneIsAnswered (G.rules game) }
    ensures own { (game : G) → OwedIsAnswered (G.rules game) }
    ensures others { (game : G) → OthersAreUntouched (G.rules game) }
    ensures over { (game : G) → AllAreAnswered (G.rules game) }
{
    readings_are_folded();
}

/// Each match is lawful.
pub fn matches_are_lawful<G: Game>(held: &Match<G>)
    ensures { IsLawfulMatch (G.rules held.now.game) held.now.value }
{
    held.state();
}

/// The reading of an answer is a lower-case text within the limit.
pub fn readings_are_folded()
    ensures { ReadingsAreFolded }
{
    reading_is_proper();
    reading_under_double();
}
