//! The tables of a game, without its rules.
ghost use Rattle.std.specs.Prelude.{◌≤◌, ◌<◌, ◌^◌, length, IsTrue, IfOk, map};
ghost use Rattle.game_core.specs.Play.{max_roles};
ghost use Rattle.kif_text.specs.View.{view as expression, views};
ghost use Rattle.rule_sentences.specs.Descriptions.{are_different};
ghost use Rattle.rule_sentences.specs.SentenceFaults.{description_of};
ghost use Rattle.ground_rules.specs.Lawfulness.TableTests.{are_roles, are_in_order, names};
ghost use Rattle.ground_rules.specs.Lawfulness.TermTexts.{are_terms_in_any};
ghost use Rattle.ground_rules.specs.Internal.Resolved.{table_of};
ghost use Rattle.ground_rules.specs.Internal.GameParts.{AreNamesOf};

use crate::names::{into_texts, place_of_head};
use crate::resolve::Names;
use crate::tables::{Mention, Role, StateHead, state_mentions};
use game_core::Text;
use kif_text::Expr;
use rule_sentences::sentence::Derived;
use std::alloc::{AllocError, Global};

/// The sentences of a description, and the tables made from them.
#[derive(Drop)]
pub struct Vocabulary {
    pub description: Vec<Expr>,
    pub roles: Vec<Role>,
    /// The texts of the terms of states, in byte order. The index is the number of the term.
    pub states: Vec<Text>,
    /// The texts of the terms of moves. The index is the number of the term.
    pub moves: Vec<Text>,
    /// The number of derived atoms that are heads.
    pub atoms: usize,
    pub init: Vec<Mention>,
    pub next: Vec<Mention>,
    /// The number of the derived atom `terminal`, or of an atom that is never true.
    pub terminal: usize,
    ghost few_atoms: { atoms < 2 ^ 63 },
    ghost some_role: { 1 ≤ length roles.items },
    ghost few_roles: { length roles.items ≤ max_roles },
    ghost tables: { IsTrue (are_roles (length moves.items) roles.items) },
    ghost names_differ: { IsTrue (are_different (names roles.items)) },
    ghost names_spelled: { IsTrue (are_terms_in_any (views description.items) (names roles.items)) },
    ghost states_ordered: { IsTrue (are_in_order states.items) },
    ghost states_spelled: { IsTrue (are_terms_in_any (views description.items) states.items) },
    ghost moves_ordered: { IsTrue (are_in_order moves.items) },
    ghost moves_spelled: { IsTrue (are_terms_in_any (views description.items) moves.items) },
}

impl Vocabulary {
    ghost use Rattle.ground_rules.specs.Internal.Vocabularies.{IsVocabularyOf};

    /// Makes a vocabulary from the names and roles of a description.
    pub(crate) fn new(
        alloc: Global,
        description: Vec<Expr>,
        names: Names,
        roles: Vec<Role>,
    ) -> Result<Vocabulary, AllocError>
        requires { AreNamesOf (description_of (map expression description.items)) (table_of names) roles.items }
        ensures { IfOk result (IsVocabularyOf description.items roles.items (table_of names)) }
    {
        let heads = names.heads.as_slice();
        let atoms = names.heads.len();
        let init = state_mentions(alloc, heads, &names.states, StateHead::Init)?;
        let next = state_mentions(alloc, heads, &names.states, StateHead::Next)?;
        let terminal = place_of_head(&names.heads, &Derived::Terminal);
        let states = into_texts(alloc, names.states)?;
        let moves = into_texts(alloc, names.moves)?;
        Ok(Vocabulary {
            description,
            roles,
            states,
            moves,
            atoms,
            init,
            next,
            terminal,
        })
    }
}
