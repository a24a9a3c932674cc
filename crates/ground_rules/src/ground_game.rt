//! The game of a ground description.
ghost use Rattle.std.specs.Prelude.{◌≡◌};
ghost use Rattle.kif_text.specs.View.{views};

use crate::evaluate::{evaluate, pass};
use crate::loading::GameParts;
use crate::lookups::{choose, find_goal, mark, pick};
use crate::state::{GroundMove, GroundState};
use crate::vocabulary::Vocabulary;
use game_core::Game;
use kif_text::Expr;
use numbered_rules::Row;
use numbered_rules::split::SplitRules;
use std::alloc::{AllocError, Global};
use std::borrow::CowSlice;

/// The game of a ground description. Its rules are in the order of a ranking.
#[derive(Drop)]
pub struct GroundGame {
    vocabulary: Vocabulary,
    rules: SplitRules,
}

impl Game for GroundGame {
    ghost use Rattle.ground_rules.specs.LoadedGame.{loaded_game};
    ghost use Rattle.ground_rules.specs.GroundGames.{tables_of};
    ghost use Rattle.ground_rules.specs.Lawfulness.LoadedGameLaws.{loaded_game_laws};

    type State = GroundState;

    type Move = GroundMove;

    ghost rules = { λ g. loaded_game (tables_of g) };

    ghost laws = { λ g. let v = g.vocabulary in loaded_game_laws (views v.description.items) (tables_of g) v.some_role v.few_roles v.tables v.names_differ v.names_spelled v.states_ordered v.states_spelled v.moves_ordered v.moves_spelled };

    fn roles(&self) -> usize {
        self.vocabulary.roles.len()
    }

    fn role_name(&self, role: usize) -> &[u8] {
        self.vocabulary.roles[role].name()
    }

    fn initial(&self, alloc: Global) -> Result<GroundState, AllocError> {
        let vocabulary = &self.vocabulary;
        let none = Row::unset(alloc, vocabulary.states.len())?;
        let kept = evaluate(alloc, &self.rules.rest, vocabulary.atoms, &none, &[])?;
        let truth = pass(&self.rules.turn, kept, &none, &[]);
        let row = mark(alloc, &vocabulary.init, &truth, vocabulary.states.len())?;
        self.settle(alloc, row)
    }

    fn legal(
        &self,
        alloc: Global,
        state: &GroundState,
        role: usize,
    ) -> Result<Vec<GroundMove>, AllocError> {
        let moves = choose(alloc, self.vocabulary.roles[role].legal(), &state.kept)?;
        Ok(moves)
    }

    fn next(
        &self,
        alloc: Global,
        state: &GroundState,
        joint: &[GroundMove],
    ) -> Result<GroundState, AllocError> {
        let vocabulary = &self.vocabulary;
        let moves: Vec<usize> = joint.iter().map(|taken| taken.term).collect(alloc)?;
        let kept = state.kept.clone()?;
        let truth = pass(&self.rules.turn, kept, &state.row, &moves);
        let row = mark(alloc, &vocabulary.next, &truth, vocabulary.states.len())?;
        self.settle(alloc, row)
    }

    fn terminal(&self, alloc: Global, state: &GroundState) -> Result<bool, AllocError> {
        Ok(state.kept.is_set(self.vocabulary.terminal))
    }

    fn goal(
        &self,
        alloc: Global,
        state: &GroundState,
        role: usize,
    ) -> Result<Option<u8>, AllocError> {
        Ok(find_goal(self.vocabulary.roles[role].goals(), &state.kept))
    }

    fn move_text(&self, taken: &GroundMove) -> &[u8] {
        self.vocabulary.moves[taken.term].as_slice()
    }

    fn state_text(
        &self,
        alloc: Global,
        state: &GroundState,
    ) -> Result<Vec<CowSlice<'_, u8, Global>>, AllocError> {
        pick(alloc, &state.row, &self.vocabulary.states)
    }

    fn copy_state(&self, alloc: Global, state: &GroundState) -> Result<GroundState, AllocError> {
        let row = state.row.clone()?;
        let kept = state.kept.clone()?;
        Ok(GroundState { row, kept })
    }

    fn copy_move(&self, alloc: Global, taken: &GroundMove) -> Result<GroundMove, AllocError> {
        Ok(*taken)
    }
}

impl GroundGame {
    ghost use Rattle.std.specs.Prelude.{IfOk, map};
    ghost use Rattle.kif_text.specs.View.{view as expression};
    ghost use Rattle.numbered_rules.specs.Numbered.{rules_of};
    ghost use Rattle.ground_rules.specs.Internal.Resolved.{table_of};
    ghost use Rattle.rule_sentences.specs.SentenceFaults.{description_of};
    ghost use Rattle.ground_rules.specs.Described.{IsGameOf};
    ghost use Rattle.ground_rules.specs.Internal.GameParts.{AreGameParts};
    ghost use Rattle.ground_rules.specs.LoadedGame.{loaded_game, settled};
    ghost use Rattle.ground_rules.specs.GroundGames.{sentences_of, tables_of};

    /// Makes the state with this row of terms.
    fn settle(&self, alloc: Global, row: Row) -> Result<GroundState, AllocError>
        ensures { IfOk result (λ s. s ≡ settled (tables_of self.now) row) }
    {
        let kept = evaluate(alloc, &self.rules.rest, self.vocabulary.atoms, &row, &[])?;
        Ok(GroundState { row, kept })
    }

    /// Makes a game from the parts of its description.
    pub(crate) fn new(
        alloc: Global,
        description: Vec<Expr>,
        parts: GameParts,
    ) -> Result<GroundGame, AllocError>
        requires { AreGameParts (description_of (map expression description.items)) (table_of parts.names) parts.roles.items (rules_of parts.rules.rest.items) (rules_of parts.rules.turn.items) }
        ensures game { IfOk result (λ g. IsGameOf (description_of (map expression description.items)) (loaded_game (tables_of g))) }
        ensures description { IfOk result (λ g. sentences_of g ≡ map expression description.items) }
    {
        let GameParts {
            names,
            roles,
            rules,
        } = parts;
        let vocabulary = Vocabulary::new(alloc, description, names, roles)?;
        Ok(GroundGame { vocabulary, rules })
    }

    /// The sentences of the description, in lower case.
    pub fn description(&self) -> &[Expr]
        ensures { map expression result.now ≡ sentences_of self.now }
    {
        self.vocabulary.description.as_slice()
    }

    /// The tables of the game, without the rules.
    pub fn vocabulary(&self) -> &Vocabulary
        ensures { result.now ≡ self.now.vocabulary }
    {
        &self.vocabulary
    }

    /// The rules of the game in two parts, each in the order of a ranking.
    pub fn rules(&self) -> &SplitRules
        ensures { result.now ≡ self.now.rules }
    {
        &self.rules
    }

    /// Drops the rules and returns the vocabulary, for another form of the game.
    pub fn into_vocabulary(self) -> Vocabulary
        ensures { result ≡ self.vocabulary }
    {
        self.vocabulary
    }
}
