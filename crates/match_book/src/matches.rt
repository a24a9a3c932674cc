//! A match.
ghost use Rattle.std.specs.Prelude.{◌≡◌, ◌<◌, ◌≤◌, ◌+◌, length, true, false, IfOk, OnOk, OnErr, Err, None, IsSome, option_copied, option_map, Some, slice_set, take, ◌++◌, ◌∷◌, []};
ghost use Rattle.match_book.specs.Roles.{at_role, is_there, every_role};
ghost use Rattle.match_book.specs.Marks.{mark_text};
ghost use Rattle.desk_calls.specs.Answers.{answer_lent};
ghost use Rattle.match_book.specs.Judgement.{judgement, IsJudged};
ghost use Rattle.match_book.specs.MatchValue.{state_after, move_at, error_at};
ghost use Rattle.match_book.specs.declared.answer.AnswerFault.TheVariants.{Memory};
ghost use Rattle.match_book.specs.declared.phase.Stage.TheVariants.{Starting, Playing};
ghost use Rattle.match_book.specs.Phase.{stage, still_answers, answered_in, has_answered, status, round, cause, goal_of, is_live};
ghost use Rattle.match_book.specs.Due.{IsDueAnswer, CarriesMoves, owed_in, last_move_texts};
ghost use Rattle.match_book.specs.Lawful.{IsLawfulMatch};
ghost use Rattle.match_book.specs.Steps.{new_match, turn_of, parts, after_abort, after_answer, with_start_mark, with_open_answer, with_end_mark, refusal, IsTakenUnless, IsLastToStart, MayWantMemory};

use crate::answer::{AbortFault, AnswerFault, AnswerRefusal, Mark};
use crate::due::OwedFault;
use crate::judgement::{Judgement, judge};
use crate::laws::readings_are_folded;
use crate::phase::{Cause, Stage};
use crate::places::{are_all_there, blank, clear};
use crate::retirement::{
    RoleStrikes, all_unstruck, answered_at_first, count_retired, strikes_after,
};
use crate::role_moves::RoleMoves;
use crate::settlement::settle;
use crate::turn::{Turn, count_errors, move_texts, parts_of, turn_of};
use desk_calls::{Answer, Due, LentAnswer, Owed, Setup, Status};
use game_core::{Game, Texts};
use std::alloc::{AllocError, Global};
use std::marker::Model;
use std::mem;
use std::snapshot::Snapshot;

/// A match: the answers so far, and values computed from them, so that no call iterates over all turns.
///
/// Contracts see a match as its value and its game. The caller keeps the game, and passes it to each call that needs it.
/// Every match is lawful, as the contract of `state` states.
#[derive(Drop)]
pub struct Match<G: Game> {
    game: Snapshot<G>,
    setup: Setup,
    /// The mark of each role's answer to START.
    start_marks: Vec<Option<Mark>>,
    /// The recorded turns.
    turns: Vec<Turn<G::Move>>,
    /// The judgement of each role's answer for the turn that is not yet recorded.
    open_answers: Vec<Option<Judgement<G::Move>>>,
    abort_asked: bool,
    /// The mark of each role's answer to STOP or ABORT.
    end_marks: Vec<Option<Mark>>,
    /// The state before each recorded turn.
    past: Vec<G::State>,
    state: G::State,
    stage: Stage,
    /// The number of roles that have answered this round. In play, retired roles count as if they had answered.
    answered: usize,
    /// The number of replaced moves.
    substituted: u64,
    strikes: Vec<RoleStrikes>,
    /// In play, the legal moves of each role in the present state.
    legal: Vec<RoleMoves<G::Move>>,
    /// Once the match has stopped, the goal of each role.
    goals: Vec<Option<u8>>,
}

impl<G: Game> Model for Match<G> {
    ghost use Rattle.match_book.specs.MatchValue.{GameMatch};
    ghost use Rattle.match_book.specs.Internal.Kept.{IsKept};

    ghost Value = { GameMatch G G.Move };

    ghost view = { λ m. record {
      game = m.game.value;
      value = record {
        setup = m.setup;
        start_marks = m.start_marks.items;
        turns = m.turns.items;
        open_answers = m.open_answers.items;
        abort_asked = m.abort_asked;
        end_marks = m.end_marks.items;
      };
    } };

    ghost invariant = { λ m. IsKept (G.rules m.game.value) (record {
      setup = m.setup;
      start_marks = m.start_marks.items;
      turns = m.turns.items;
      open_answers = m.open_answers.items;
      abort_asked = m.abort_asked;
      end_marks = m.end_marks.items;
    }) m.past.items m.state m.stage m.answered m.substituted m.strikes.items m.legal.items m.goals.items };
}

/// Records a turn: the present state becomes the last past state, and `next` becomes the present state. If an allocation is
/// refused, nothing changes.
fn go_on<T: Drop, S: Drop>(
    turns: &mut Vec<T>,
    turn: T,
    past: &mut Vec<S>,
    present: &mut S,
    next: S,
) -> Result<(), AllocError>
    ensures turns { OnOk result (turns.new.items ≡ turns.old.items ++ turn ∷ []) }
    ensures past { OnOk result (past.new.items ≡ past.old.items ++ present.old ∷ []) }
    ensures present { OnOk result (present.new ≡ next) }
    ensures err { OnErr result ((turns.new.items ≡ turns.old.items) × (past.new.items ≡ past.old.items) × (present.new ≡ present.old)) }
{
    past.push(next)?;
    if turns.push(turn).is_err() {
        past.pop();
        return Err(AllocError);
    }
    let last = past.len() - 1;
    mem::swap(present, &mut past[last]);
    Ok(())
}

impl<G: Game> Match<G> {
    /// Creates a match without any answer. Each role owes an answer to START.
    pub fn new(alloc: Global, game: &G, setup: Setup) -> Result<Match<G>, AllocError>
        requires { length setup.players ≡ (G.rules game.now).roles }
        ensures { IfOk result (λ m. m ≡ record { game = game.now; value = new_match (G.rules game.now) setup }) }
    {
        let roles = game.roles();
        let state = game.initial(alloc)?;
        let start_marks = blank(alloc, roles)?;
        let open_answers = blank(alloc, roles)?;
        let end_marks = blank(alloc, roles)?;
        let strikes = all_unstruck(alloc, roles)?;
        Ok(Match {
            game: Snapshot::of(game),
            setup,
            start_marks,
            turns: Vec::new(alloc),
            open_answers,
            abort_asked: false,
            end_marks,
            past: Vec::new(alloc),
            state,
            stage: Stage::Starting,
            answered: 0,
            substituted: 0,
            strikes,
            legal: Vec::new(alloc),
            goals: Vec::new(alloc),
        })
    }

    /// The setup of the match.
    pub fn setup(&self) -> &Setup
        ensures { result.now ≡ self.now.value.setup }
    {
        &self.setup
    }

    /// The phase, the round, and the numbers of turns and replaced moves.
    pub fn status(&self) -> Status
        ensures { result ≡ status (G.rules self.now.game) self.now.value }
    {
        Status {
            phase: self.stage.phase(are_all_there(self.end_marks.as_slice())),
            round: self.round(),
            turns: self.turns.len() as u64,
            substitutions: self.substituted,
        }
    }

    /// The state after all recorded turns.
    pub fn state(&self) -> &G::State
        ensures state { result.now ≡ state_after (G.rules self.now.game) self.now.value.turns }
        ensures is_state { (G.rules self.now.game).IsState result.now }
        ensures lawful { IsLawfulMatch (G.rules self.now.game) self.now.value }
    {
        &self.state
    }

    /// The state after the first `turns` recorded turns. The match stores this state, so nothing is replayed.
    pub fn state_after(&self, turns: usize) -> &G::State
        requires { turns ≤ length self.now.value.turns }
        ensures state { result.now ≡ state_after (G.rules self.now.game) (take turns self.now.value.turns) }
        ensures is_state { (G.rules self.now.game).IsState result.now }
    {
        if turns < self.past.len() {
            &self.past[turns]
        } else {
            &self.state
        }
    }

    /// The role's move in a recorded turn. Turns are numbered from 0.
    pub fn move_at(&self, turn: usize, role: usize) -> &G::Move
        requires turn { turn < length self.now.value.turns }
        requires role { role < (G.rules self.now.game).roles }
        ensures taken { move_at self.now.value.turns turn role ≡ Some result.now }
        ensures is_move { (G.rules self.now.game).IsMove result.now }
    {
        self.turns[turn].moves.at(role)
    }

    /// The error of the role's move in a recorded turn. It is empty if the role's answer named the move.
    pub fn error_at(&self, turn: usize, role: usize) -> &[u8]
        requires turn { turn < length self.now.value.turns }
        requires role { role < (G.rules self.now.game).roles }
        ensures { error_at self.now.value.turns turn role ≡ Some result.now }
    {
        self.turns[turn].errors.at(role).as_slice()
    }

    /// The mark of the role's answer to START, if it has answered.
    pub fn start_mark(&self, role: usize) -> Option<&[u8]>
        requires { role < (G.rules self.now.game).roles }
        ensures { option_copied result ≡ option_map mark_text (at_role self.now.value.start_marks role) }
    {
        match self.start_marks[role] {
            Some(mark) => Some(mark.text()),
            None => None,
        }
    }

    /// The mark of the role's answer to STOP or ABORT, if it has answered.
    pub fn end_mark(&self, role: usize) -> Option<&[u8]>
        requires { role < (G.rules self.now.game).roles }
        ensures { option_copied result ≡ option_map mark_text (at_role self.now.value.end_marks role) }
    {
        match self.end_marks[role] {
            Some(mark) => Some(mark.text()),
            None => None,
        }
    }

    /// The role's goal, or `None` before the match stops.
    pub fn goal_of(&self, role: usize) -> Option<u8>
        requires { role < (G.rules self.now.game).roles }
        ensures { result ≡ goal_of (G.rules self.now.game) self.now.value role }
    {
        *self.goals.get(role)?
    }

    /// Why the match is aborted, if it is.
    pub fn cause(&self) -> Option<Cause>
        ensures { result ≡ cause (G.rules self.now.game) self.now.value }
    {
        self.stage.cause()
    }

    fn stage(&self) -> Stage
        ensures { result ≡ stage (G.rules self.now.game) self.now.value }
    {
        self.stage
    }

    fn round(&self) -> u64
        ensures { result ≡ round (G.rules self.now.game) self.now.value }
    {
        let turns = self.turns.len() as u64;
        match self.stage {
            Stage::Starting => 0,
            Stage::Aborting(Cause::Asked) if !are_all_there(self.start_marks.as_slice()) => 1,
            Stage::Aborting(Cause::Asked) => turns + 2,
            _ => turns + 1,
        }
    }

    fn has_answered(&self, role: usize) -> bool
        requires { role < (G.rules self.now.game).roles }
        ensures { result ≡ has_answered (G.rules self.now.game) self.now.value role }
    {
        match self.stage {
            Stage::Starting => self.start_marks[role].is_some(),
            Stage::Playing => { self.strikes[role].is_retired || self.open_answers[role].is_some() }
            Stage::Stopping | Stage::Aborting(_) => self.end_marks[role].is_some(),
        }
    }

    /// The message that the match owes to a role now, or the reason why it owes none.
    pub fn owed(&self, alloc: Global, game: &G, role: usize) -> Result<Due, OwedFault>
        requires game { self.now.game ≡ game.now }
        ensures { IsDueAnswer (G.rules self.now.game) self.now.value role result }
    {
        if role >= game.roles() {
            return Err(OwedFault::NoRole);
        }
        let status = self.status();
        if status.phase.is_last() {
            return Ok(Due::Over);
        }
        let round = status.round;
        if self.has_answered(role) {
            return Ok(Due::Hold { round });
        }
        let owed = self.owed_message(alloc, game)?;
        Ok(Due::Owe { round, owed })
    }

    /// The message that the match owes to roles in this round.
    fn owed_message(&self, alloc: Global, game: &G) -> Result<Owed, AllocError>
        requires { self.now.game ≡ game.now }
        ensures ok { IfOk result (λ o. o ≡ owed_in (stage (G.rules self.now.game) self.now.value) (last_move_texts (G.rules self.now.game) self.now.value.turns)) }
        ensures err { OnErr result (CarriesMoves (owed_in (stage (G.rules self.now.game) self.now.value) (last_move_texts (G.rules self.now.game) self.now.value.turns))) }
    {
        match self.stage() {
            Stage::Starting => Ok(Owed::Start),
            Stage::Playing => Ok(Owed::Play(self.last_move_texts(alloc, game)?)),
            Stage::Stopping => Ok(Owed::Stop(self.last_move_texts(alloc, game)?)),
            Stage::Aborting(_) => Ok(Owed::Abort),
        }
    }

    fn last_move_texts(&self, alloc: Global, game: &G) -> Result<Option<Texts>, AllocError>
        requires { self.now.game ≡ game.now }
        ensures ok { IfOk result (λ o. o ≡ last_move_texts (G.rules self.now.game) self.now.value.turns) }
        ensures err { OnErr result (IsSome (last_move_texts (G.rules self.now.game) self.now.value.turns)) }
    {
        let count = self.turns.len();
        if count == 0 {
            return Ok(None);
        }
        let turn = &self.turns[count - 1];
        Ok(Some(move_texts(alloc, game, turn.moves.as_slice())?))
    }

    /// Why `answer` would refuse the role's answer for a round, or `None` if it would take the answer.
    pub fn refusal(&self, role: usize, round: u64) -> Option<AnswerRefusal>
        ensures { result ≡ refusal (G.rules self.now.game) self.now.value role round }
    {
        if role >= self.start_marks.len() {
            return Some(AnswerRefusal::NoRole);
        }
        let status = self.status();
        if status.phase.is_last() {
            return Some(AnswerRefusal::Over);
        }
        if round != status.round {
            return Some(AnswerRefusal::Stale(status.round));
        }
        if self.has_answered(role) {
            return Some(AnswerRefusal::Twice);
        }
        None
    }

    /// Takes a role's answer for a round. The next round begins when all roles have answered.
    pub fn answer(
        &mut self,
        alloc: Global,
        game: &G,
        role: usize,
        round: u64,
        answer: Answer,
    ) -> Result<(), AnswerFault>
        requires game { self.old.game ≡ game.now }
        ensures game { self.new.game ≡ self.old.game }
        ensures taken { IsTakenUnless (refusal (G.rules self.old.game) self.old.value role round) result }
        ensures ok { OnOk result (self.new.value ≡ after_answer (G.rules self.old.game) self.old.value role round answer) }
        ensures err { OnErr result (self.new ≡ self.old) }
        ensures memory { result ≡ Err Memory → MayWantMemory (G.rules self.old.game) self.old.value role }
    {
        match self.offer(alloc, game, role, round, &answer.lend())? {
            None => Ok(()),
            Some(refusal) => Err(AnswerFault::from(refusal)),
        }
    }

    /// Takes a role's answer for a round, as `answer` does. Returns why the match refuses the answer, or `None` if the
    /// match took it.
    pub fn offer(
        &mut self,
        alloc: Global,
        game: &G,
        role: usize,
        round: u64,
        answer: &LentAnswer<'_>,
    ) -> Result<Option<AnswerRefusal>, AllocError>
        requires game { self.old.game ≡ game.now }
        ensures game { self.new.game ≡ self.old.game }
        ensures refusal { IfOk result (λ o. o ≡ refusal (G.rules self.old.game) self.old.value role round) }
        ensures ok { OnOk result (self.new.value ≡ after_answer (G.rules self.old.game) self.old.value role round (answer_lent answer.now)) }
        ensures err { OnErr result (self.new ≡ self.old) }
        ensures accepted { OnErr result (refusal (G.rules self.old.game) self.old.value role round ≡ None) }
        ensures memory { OnErr result (MayWantMemory (G.rules self.old.game) self.old.value role) }
    {
        if let Some(refusal) = self.refusal(role, round) {
            return Ok(Some(refusal));
        }
        match self.stage() {
            Stage::Starting => self.take_start_mark(alloc, game, role, Mark::of(answer))?,
            Stage::Playing => {
                readings_are_folded();
                let judged = self.judged(alloc, game, role, answer)?;
                self.take_open_answer(alloc, game, role, judged)?;
            }
            Stage::Stopping | Stage::Aborting(_) => self.take_end_mark(role, Mark::of(answer)),
        }
        Ok(None)
    }

    fn take_start_mark(
        &mut self,
        alloc: Global,
        game: &G,
        role: usize,
        mark: Mark,
    ) -> Result<(), AllocError>
        requires game { self.old.game ≡ game.now }
        requires role { role < (G.rules self.old.game).roles }
        requires stage { stage (G.rules self.old.game) self.old.value ≡ Starting }
        requires free { is_there self.old.value.start_marks role ≡ false }
        ensures game { self.new.game ≡ self.old.game }
        ensures ok { OnOk result (self.new.value ≡ with_start_mark self.old.value role mark) }
        ensures err { OnErr result (self.new ≡ self.old) }
        ensures last { OnErr result (IsLastToStart (G.rules self.old.game) self.old.value role) }
    {
        if self.answered + 1 < self.start_marks.len() {
            self.start_marks[role] = Some(mark);
            self.answered += 1;
            return Ok(());
        }
        let settlement = settle(alloc, game, &self.state, self.turns.len(), 0)?;
        self.start_marks[role] = Some(mark);
        self.stage = settlement.stage;
        self.legal = settlement.legal;
        self.goals = settlement.goals;
        self.answered = 0;
        Ok(())
    }

    fn take_end_mark(&mut self, role: usize, mark: Mark)
        requires role { role < (G.rules self.old.game).roles }
        requires stage { is_live (stage (G.rules self.old.game) self.old.value) ≡ false }
        requires free { is_there self.old.value.end_marks role ≡ false }
        ensures game { self.new.game ≡ self.old.game }
        ensures value { self.new.value ≡ with_end_mark self.old.value role mark }
    {
        self.end_marks[role] = Some(mark);
        self.answered += 1;
    }

    /// Judges a role's answer for the open turn.
    fn judged(
        &self,
        alloc: Global,
        game: &G,
        role: usize,
        answer: &LentAnswer<'_>,
    ) -> Result<Judgement<G::Move>, AllocError>
        requires game { self.now.game ≡ game.now }
        requires role { role < (G.rules self.now.game).roles }
        requires stage { stage (G.rules self.now.game) self.now.value ≡ Playing }
        ensures { IfOk result (λ j. judgement (G.rules self.now.game) (state_after (G.rules self.now.game) self.now.value.turns) role (answer_lent answer.now) ≡ Some j) }
    {
        let moves = self.legal[role].as_slice();
        Ok(judge(alloc, game, moves, answer)?.unwrap())
    }

    fn take_open_answer(
        &mut self,
        alloc: Global,
        game: &G,
        role: usize,
        judged: Judgement<G::Move>,
    ) -> Result<(), AllocError>
        requires game { self.old.game ≡ game.now }
        requires role { role < (G.rules self.old.game).roles }
        requires stage { stage (G.rules self.old.game) self.old.value ≡ Playing }
        requires free { answered_in Playing self.old.value role ≡ false }
        requires judged { IsJudged (G.rules self.old.game) ((G.rules self.old.game).legal (state_after (G.rules self.old.game) self.old.value.turns) role) judged.taken judged.error }
        ensures game { self.new.game ≡ self.old.game }
        ensures ok { OnOk result (self.new.value ≡ with_open_answer (G.rules self.old.game) self.old.value role (Some judged)) }
        ensures err { OnErr result (self.new ≡ self.old) }
    {
        if self.answered + 1 < self.open_answers.len() {
            self.open_answers[role] = Some(judged);
            self.answered += 1;
            return Ok(());
        }
        self.record_turn(alloc, game, role, judged)
    }

    /// The turn made of the open answers, the last answer `judged`, and the first legal moves of the retired roles. This
    /// copies the open answers, so that they are still there if a later allocation is refused.
    fn turn_with(
        &self,
        alloc: Global,
        game: &G,
        role: usize,
        judged: Judgement<G::Move>,
    ) -> Result<Turn<G::Move>, AllocError>
        requires game { self.now.game ≡ game.now }
        requires role { role < (G.rules self.now.game).roles }
        requires stage { stage (G.rules self.now.game) self.now.value ≡ Playing }
        requires answers { still_answers self.now.value role ≡ true }
        ensures { IfOk result (λ t. t ≡ turn_of (parts (G.rules self.now.game) (record self.now.value { open_answers = slice_set self.now.value.open_answers role (Some judged) }))) }
    {
        let answers = self.open_answers.as_slice();
        let strikes = self.strikes.as_slice();
        let legal = self.legal.as_slice();
        let mut parts = parts_of(alloc, game, answers, strikes, legal)?;
        parts[role] = Some(judged);
        turn_of(alloc, parts)
    }

    /// Makes a turn of the open answers and the last answer `judged`, and records it.
    fn record_turn(
        &mut self,
        alloc: Global,
        game: &G,
        role: usize,
        judged: Judgement<G::Move>,
    ) -> Result<(), AllocError>
        requires game { self.old.game ≡ game.now }
        requires role { role < (G.rules self.old.game).roles }
        requires stage { stage (G.rules self.old.game) self.old.value ≡ Playing }
        requires judged { IsJudged (G.rules self.old.game) ((G.rules self.old.game).legal (state_after (G.rules self.old.game) self.old.value.turns) role) judged.taken judged.error }
        requires answers { still_answers self.old.value role ≡ true }
        requires last { every_role (G.rules self.old.game).roles (answered_in Playing (record self.old.value { open_answers = slice_set self.old.value.open_answers role (Some judged) })) ≡ true }
        ensures game { self.new.game ≡ self.old.game }
        ensures ok { OnOk result (self.new.value ≡ with_open_answer (G.rules self.old.game) self.old.value role (Some judged)) }
        ensures err { OnErr result (self.new ≡ self.old) }
    {
        let turn = self.turn_with(alloc, game, role, judged)?;
        let state = game.next(alloc, &self.state, turn.moves.as_slice())?;
        let errors = turn.errors.as_slice();
        let strikes = strikes_after(alloc, self.setup.strikes, self.strikes.as_slice(), errors)?;
        let retired = count_retired(strikes.as_slice());
        let settlement = settle(alloc, game, &state, self.turns.len() + 1, retired)?;
        let substituted = count_errors(errors);
        go_on(
            &mut self.turns,
            turn,
            &mut self.past,
            &mut self.state,
            state,
        )?;
        clear(&mut self.open_answers);
        self.stage = settlement.stage;
        self.legal = settlement.legal;
        self.goals = settlement.goals;
        self.strikes = strikes;
        self.answered = answered_at_first(settlement.stage, retired);
        self.substituted += substituted as u64;
        Ok(())
    }

    /// Aborts a match that is neither stopping nor aborting. Drops its open answers.
    pub fn abort(&mut self) -> Result<(), AbortFault>
        ensures game { self.new.game ≡ self.old.game }
        ensures ok { OnOk result (is_live (stage (G.rules self.old.game) self.old.value) ≡ true) }
        ensures err { OnErr result (is_live (stage (G.rules self.old.game) self.old.value) ≡ false) }
        ensures value { self.new.value ≡ after_abort (G.rules self.old.game) self.old.value }
    {
        match self.stage {
            Stage::Starting | Stage::Playing => {}
            Stage::Stopping | Stage::Aborting(_) => return Err(AbortFault::Ended),
        }
        clear(&mut self.open_answers);
        self.legal.clear();
        self.abort_asked = true;
        self.stage = Stage::Aborting(Cause::Asked);
        self.answered = 0;
        Ok(())
    }
}
