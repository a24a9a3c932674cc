//! The truth values of the derived atoms in a state.
ghost use Rattle.std.specs.Prelude.{◌≡◌, ℕ, IfOk, []};
ghost use Rattle.numbered_rules.specs.Fit.{truth, any_true, all_true, Fits};
ghost use Rattle.numbered_rules.specs.Numbered.{bit, numbered, view, views, rules_of, row_after, unset};
ghost use Rattle.ground_rules.specs.Internal.Ranked.{AreRankedFrom};

use numbered_rules::Row;
use numbered_rules::numbered::{Literal, Rule};
use std::alloc::{AllocError, Global};

/// Whether the literal is true. `row` has the truth values of the derived atoms, `state` has those of the terms, and
/// `joint` has the term of each role's move.
#[cycle(holds)]
fn holds(literal: &Literal, row: &Row, state: &Row, joint: &[usize]) -> bool
    ensures { result ≡ truth (numbered state.now joint.now) (bit row.now) (view literal.now) }
{
    match literal {
        Literal::Holds(atom) => row.is_set(*atom),
        Literal::InState(term) => state.is_set(*term),
        Literal::Does(role, term) => makes(joint, *role, *term),
        Literal::Not(inner) => !holds(inner, row, state, joint),
        Literal::Or(literals) => any_holds(literals, row, state, joint),
        Literal::Known(truth) => *truth,
    }
}

#[cycle(holds)]
fn any_holds(literals: &Vec<Literal>, row: &Row, state: &Row, joint: &[usize]) -> bool
    ensures { result ≡ any_true (numbered state.now joint.now) (bit row.now) (views literals.now.items) }
{
    for literal in literals {
        if holds(literal, row, state, joint) {
            return true;
        }
    }
    false
}

/// Whether the role makes the move with this term. `joint` has the term of each role's move.
pub fn makes(joint: &[usize], role: usize, term: usize) -> bool
    ensures { result ≡ (numbered [] joint.now).does role term }
{
    if role < joint.len() {
        joint[role] == term
    } else {
        false
    }
}

fn all_hold(literals: &[Literal], row: &Row, state: &Row, joint: &[usize]) -> bool
    ensures { result ≡ all_true (numbered state.now joint.now) (bit row.now) (views literals.now) }
{
    for literal in literals {
        if !holds(literal, row, state, joint) {
            return false;
        }
    }
    true
}

/// Evaluates each rule once, in order, and returns the row. A rule sets its head if all its literals are true.
pub fn pass(rules: &[Rule], row: Row, state: &Row, joint: &[usize]) -> Row
    ensures { result ≡ row_after (numbered state.now joint.now) row (rules_of rules.now) }
{
    let mut row = row;
    for rule in rules {
        if all_hold(&rule.body, &row, state, joint) {
            row.set(rule.head);
        }
    }
    row
}

/// The truth value of each derived atom, from one pass over the rules. If the rules are in the order of a ranking of their
/// heads, the result is the fit.
pub fn evaluate(
    alloc: Global,
    rules: &[Rule],
    atoms: usize,
    state: &Row,
    joint: &[usize],
) -> Result<Row, AllocError>
    ensures fits { IfOk result (λ row. (rank : ℕ → ℕ) → AreRankedFrom rank 0 atoms (rules_of rules.now) → Fits (numbered state.now joint.now) (rules_of rules.now) (bit row)) }
    ensures pass { IfOk result (λ row. row ≡ row_after (numbered state.now joint.now) (unset atoms) (rules_of rules.now)) }
{
    let row = Row::unset(alloc, atoms)?;
    Ok(pass(rules, row, state, joint))
}
