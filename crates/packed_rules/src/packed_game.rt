//! Packed games.
ghost use Rattle.std.specs.Prelude.{◌≡◌, length};
ghost use Rattle.kif_text.specs.View.{views};

use crate::bits::BitRow;
use crate::lookups::{choose, find_goal, mark, pick};
use crate::packed_rules::PackedRules;
use crate::state::PackedState;
use game_core::{Game, Text};
use ground_rules::tables::Mention;
use ground_rules::vocabulary::Vocabulary;
use ground_rules::{GroundGame, GroundMove};
use kif_text::Expr;
use std::alloc::{AllocError, Global};
use std::borrow::CowSlice;

/// The packed game of a ground description.
#[derive(Drop)]
pub struct PackedGame {
    vocabulary: Vocabulary,
    rules: PackedRules,
    ghost sized: { rules.terms ≡ length vocabulary.states.items },
}

impl Game for PackedGame {
    ghost use Rattle.ground_rules.specs.LoadedGame.{loaded_game};
    ghost use Rattle.ground_rules.specs.Lawfulness.LoadedGameLaws.{loaded_game_laws};
    ghost use Rattle.packed_rules.specs.PackedGames.{tables_of};

    type State = PackedState;

    type Move = GroundMove;

    ghost rules = { λ g. loaded_game (tables_of g) };

    ghost laws = { λ g. let v = g.vocabulary in loaded_game_laws (views v.description.items) (tables_of g) v.some_role v.few_roles v.tables v.names_differ v.names_spelled v.states_ordered v.states_spelled v.moves_ordered v.moves_spelled };

    fn roles(&self) -> usize {
        self.vocabulary.roles.len()
    }

    fn role_name(&self, role: usize) -> &[u8] {
        self.vocabulary.roles[role].name()
    }

    fn initial(&self, alloc: Global) -> Result<PackedState, AllocError> {
        let vocabulary = &self.vocabulary;
        let none = BitRow::unset(alloc, vocabulary.states.len() + vocabulary.atoms)?;
        let truth = self.rules.pass_turn(self.rules.pass_rest(none), &[]);
        self.state_of(alloc, &vocabulary.init, &truth)
    }

    fn legal(
        &self,
        alloc: Global,
        state: &PackedState,
        role: usize,
    ) -> Result<Vec<GroundMove>, AllocError> {
        let moves = choose(alloc, self.vocabulary.roles[role].legal(), state)?;
        Ok(moves)
    }

    fn next(
        &self,
        alloc: Global,
        state: &PackedState,
        joint: &[GroundMove],
    ) -> Result<PackedState, AllocError> {
        let moves: Vec<usize> = joint.iter().map(|taken| taken.term).collect(alloc)?;
        let truth = self.rules.pass_turn(state.bits.clone()?, &moves);
        self.state_of(alloc, &self.vocabulary.next, &truth)
    }

    fn terminal(&self, alloc: Global, state: &PackedState) -> Result<bool, AllocError> {
        Ok(state.has_atom(self.vocabulary.terminal))
    }

    fn goal(
        &self,
        alloc: Global,
        state: &PackedState,
        role: usize,
    ) -> Result<Option<u8>, AllocError> {
        Ok(find_goal(self.vocabulary.roles[role].goals(), state))
    }

    fn move_text(&self, taken: &GroundMove) -> &[u8] {
        self.vocabulary.moves[taken.term].as_slice()
    }

    fn state_text(
        &self,
        alloc: Global,
        state: &PackedState,
    ) -> Result<Vec<CowSlice<'_, u8, Global>>, AllocError> {
        pick(alloc, state, &self.vocabulary.states)
    }

    fn copy_state(&self, alloc: Global, state: &PackedState) -> Result<PackedState, AllocError> {
        Ok(PackedState {
            bits: state.bits.clone()?,
            terms: state.terms,
        })
    }

    fn copy_move(&self, alloc: Global, taken: &GroundMove) -> Result<GroundMove, AllocError> {
        Ok(*taken)
    }
}

impl PackedGame {
    ghost use Rattle.std.specs.Prelude.{IfOk, map, drop, length};
    ghost use Rattle.kif_text.specs.View.{view as expression};
    ghost use Rattle.ground_rules.specs.Numbered.{unset};
    ghost use Rattle.ground_rules.specs.Lookups.{marked};
    ghost use Rattle.ground_rules.specs.LoadedGame.{settled};
    ghost use Rattle.ground_rules.specs.GroundGames.{tables_with};
    ghost use Rattle.packed_rules.specs.PackedTables.{rest_of, turn_of};
    ghost use Rattle.packed_rules.specs.PackedGames.{sentences_of, tables_of};

    /// Makes the state with the terms of the true mentions set. The row has the truth values of terms and derived atoms.
    fn state_of(
        &self,
        alloc: Global,
        mentions: &[Mention],
        truth: &BitRow,
    ) -> Result<PackedState, AllocError>
        ensures { IfOk result (λ s. s ≡ settled (tables_of self.now) (marked (unset (length self.now.vocabulary.states.items)) (drop (length self.now.vocabulary.states.items) truth.now) mentions.now)) }
    {
        let terms = self.vocabulary.states.len();
        let bits = mark(alloc, mentions, truth, terms, self.vocabulary.atoms)?;
        Ok(PackedState {
            bits: self.rules.pass_rest(bits),
            terms,
        })
    }

    /// The sentences of the description, in lower case.
    pub fn description(&self) -> &[Expr]
        ensures { map expression result.now ≡ sentences_of self.now }
    {
        self.vocabulary.description.as_slice()
    }

    /// The texts of the moves in the heads of `legal`, each once. The index is the number of the move's term.
    pub fn move_texts(&self) -> &[Text]
        ensures { result.now ≡ (tables_of self.now).moves }
    {
        self.vocabulary.moves.as_slice()
    }

    pub(crate) fn new(vocabulary: Vocabulary, rules: PackedRules) -> PackedGame
        requires { rules.terms ≡ length vocabulary.states.items }
        ensures tables { tables_of result ≡ tables_with vocabulary (rest_of rules) (turn_of rules) }
        ensures description { sentences_of result ≡ map expression vocabulary.description.items }
    {
        PackedGame { vocabulary, rules }
    }
}
