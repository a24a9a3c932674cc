//! The tables of a game, made from the heads of its rules.
ghost use Rattle.std.specs.Prelude.{◌≡◌, IfOk};
ghost use Rattle.std.specs.Option.{option_copied};
ghost use Rattle.ground_rules.specs.Internal.Resolved.{state_term, state_mentions, legal_mentions, goal_heads};

use crate::names::place_of_text;
use game_core::Text;
use indexmap::IndexSet;
use rule_sentences::sentence::Derived;
use std::alloc::{AllocError, Global};
use std::marker::Model;

/// A term, and the derived atom that makes it true: `init`, `next` or `legal`.
#[derive(Clone, Copy)]
pub struct Mention {
    pub term: usize,
    pub atom: usize,
}

/// A goal value and the derived atom that gives it.
#[derive(Clone, Copy)]
pub struct GoalHead {
    pub value: u8,
    pub atom: usize,
}

/// The tables of a role. The `legal` heads are in the order of first appearance.
#[derive(Drop)]
pub struct Role {
    pub name: Text,
    pub legal: Vec<Mention>,
    pub goals: Vec<GoalHead>,
}

impl Model for Role {
    ghost use Rattle.ground_rules.specs.Roles.{RoleTable};

    ghost Value = { RoleTable };

    ghost view = { λ r. record { name = r.name; legal = r.legal.items; goals = r.goals.items } };
}

impl Role {
    /// The role's name.
    pub fn name(&self) -> &[u8]
        ensures { result.now ≡ self.now.name }
    {
        self.name.as_slice()
    }

    /// The role's legal heads.
    pub fn legal(&self) -> &[Mention]
        ensures { result.now ≡ self.now.legal }
    {
        self.legal.as_slice()
    }

    /// The role's goal heads.
    pub fn goals(&self) -> &[GoalHead]
        ensures { result.now ≡ self.now.goals }
    {
        self.goals.as_slice()
    }
}

/// The heads that give the terms of a state: `init` for the first state, `next` for the state after a turn.
#[derive(Clone, Copy)]
pub(crate) enum StateHead {
    Init,
    Next,
}

fn state_term(head: &Derived, kind: StateHead) -> Option<&Text>
    ensures { option_copied result ≡ state_term kind head.now }
{
    match (kind, head) {
        (StateHead::Init, Derived::Init(term)) | (StateHead::Next, Derived::Next(term)) => {
            Some(term)
        }
        _ => None,
    }
}

/// The heads of this kind, each with its term and its place among all heads.
pub(crate) fn state_mentions(
    alloc: Global,
    heads: &[Derived],
    terms: &IndexSet<Text>,
    kind: StateHead,
) -> Result<Vec<Mention>, AllocError>
    ensures { IfOk result (λ v. v.items ≡ state_mentions kind terms.now.keys 0 heads.now) }
{
    let mut mentions = Vec::new(alloc);
    for (atom, head) in heads.iter().enumerate() {
        if let Some(term) = state_term(head, kind) {
            let term = place_of_text(terms, term);
            mentions.push(Mention { term, atom })?;
        }
    }
    Ok(mentions)
}

/// The `legal` heads of a role, each with the term of its move and its place among all heads.
pub(crate) fn legal_mentions(
    alloc: Global,
    heads: &[Derived],
    terms: &IndexSet<Text>,
    role: &Text,
) -> Result<Vec<Mention>, AllocError>
    ensures { IfOk result (λ v. v.items ≡ legal_mentions terms.now.keys role.now 0 heads.now) }
{
    let mut mentions = Vec::new(alloc);
    for (atom, head) in heads.iter().enumerate() {
        if let Derived::Legal(name, term) = head {
            if name == role {
                let term = place_of_text(terms, term);
                mentions.push(Mention { term, atom })?;
            }
        }
    }
    Ok(mentions)
}

/// The `goal` heads of a role, each with its value and its place among all heads.
pub(crate) fn goal_heads(
    alloc: Global,
    heads: &[Derived],
    role: &Text,
) -> Result<Vec<GoalHead>, AllocError>
    ensures { IfOk result (λ v. v.items ≡ goal_heads role.now 0 heads.now) }
{
    let mut goals = Vec::new(alloc);
    for (atom, head) in heads.iter().enumerate() {
        if let Derived::Goal(name, value) = head {
            if name == role {
                goals.push(GoalHead {
                    value: *value,
                    atom,
                })?;
            }
        }
    }
    Ok(goals)
}
