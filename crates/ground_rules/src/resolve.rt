//! Replaces names with numbers.
ghost use Rattle.std.specs.Prelude.{◌≡◌, IfOk};
ghost use Rattle.rule_sentences.specs.Sentences.{literal_of};
ghost use Rattle.rule_sentences.specs.SentenceViews.{view, views, rules_of};
ghost use Rattle.numbered_rules.specs.Numbered.{view as numbered, views as all_numbered, rules_of as numbered_rules};
ghost use Rattle.ground_rules.specs.Internal.Resolved.{resolved, all_resolved, resolved_rules, table_of};

use crate::names::{place_of_head, place_of_text};
use game_core::Text;
use indexmap::IndexSet;
use numbered_rules::numbered;
use rule_sentences::sentence::{Atomic, Derived, Literal, Rule};
use std::alloc::{AllocError, Global};

/// The tables of names. The number of a name is its place in its table.
#[derive(Drop)]
pub struct Names {
    pub roles: IndexSet<Text>,
    pub heads: IndexSet<Derived>,
    pub states: IndexSet<Text>,
    pub moves: IndexSet<Text>,
}

#[cycle(resolve)]
fn resolve(alloc: Global, names: &Names, literal: &Literal) -> Result<numbered::Literal, AllocError>
    ensures { IfOk result (λ l. numbered l ≡ resolved (table_of names.now) (view literal.now)) }
{
    match literal {
        Literal::Atomic(atomic) => Ok(resolve_atomic(names, atomic)),
        Literal::Not(inner) => {
            let inner = resolve(alloc, names, inner)?;
            Ok(numbered::Literal::Not(Box::new(alloc, inner)?))
        }
        Literal::Or(literals) => Ok(numbered::Literal::Or(resolve_all(alloc, names, literals)?)),
        Literal::Distinct(first, second) => Ok(numbered::Literal::Known(first != second)),
    }
}

fn resolve_atomic(names: &Names, atomic: &Atomic) -> numbered::Literal
    ensures { numbered result ≡ resolved (table_of names.now) (literal_of atomic.now) }
{
    match atomic {
        Atomic::Derived(atom) => numbered::Literal::Holds(place_of_head(&names.heads, atom)),
        Atomic::InState(term) => numbered::Literal::InState(place_of_text(&names.states, term)),
        Atomic::Does(role, taken) => {
            let role = place_of_text(&names.roles, role);
            let taken = place_of_text(&names.moves, taken);
            numbered::Literal::Does(role, taken)
        }
    }
}

#[cycle(resolve)]
fn resolve_all(
    alloc: Global,
    names: &Names,
    literals: &Vec<Literal>,
) -> Result<Vec<numbered::Literal>, AllocError>
    ensures { IfOk result (λ v. all_numbered v.items ≡ all_resolved (table_of names.now) (views literals.now.items)) }
{
    let mut resolved = Vec::with_capacity(alloc, literals.len())?;
    for literal in literals {
        resolved.push(resolve(alloc, names, literal)?)?;
    }
    Ok(resolved)
}

/// The rules with numbers for their names.
pub fn resolve_rules(
    alloc: Global,
    names: &Names,
    rules: &[Rule],
) -> Result<Vec<numbered::Rule>, AllocError>
    ensures { IfOk result (λ v. numbered_rules v.items ≡ resolved_rules (table_of names.now) (rules_of rules.now)) }
{
    let mut resolved = Vec::with_capacity(alloc, rules.len())?;
    for rule in rules {
        let head = place_of_head(&names.heads, &rule.head);
        let body = resolve_all(alloc, names, &rule.body)?;
        resolved.push(numbered::Rule { head, body })?;
    }
    Ok(resolved)
}
