//! Finds the derived atoms that depend on the state or on moves.
ghost use Rattle.std.specs.Prelude.{◌≡◌, [], IfOk};
ghost use Rattle.numbered_rules.specs.Fit.{truth, any_true};
ghost use Rattle.numbered_rules.specs.Numbered.{bit, numbered, view, views, rules_of, row_after, unset};
ghost use Rattle.numbered_rules.specs.Exposed.{exposed, all_exposed, exposed_rules};

use crate::numbered::{Literal, Rule};
use crate::row::Row;
use std::alloc::{AllocError, Global};

/// Whether the literal contains a `does` sentence, an atom that is set in the row or, with `of_state`, a `true` sentence.
#[cycle(speaks)]
fn speaks(literal: &Literal, row: &Row, of_state: bool) -> bool
    ensures { result ≡ truth (numbered [] []) (bit row.now) (exposed of_state (view literal.now)) }
{
    match literal {
        Literal::Holds(atom) => row.is_set(*atom),
        Literal::InState(_) => of_state,
        Literal::Does(_, _) => true,
        Literal::Not(inner) => speaks(inner, row, of_state),
        Literal::Or(literals) => any_speaks(literals, row, of_state),
        Literal::Known(_) => false,
    }
}

#[cycle(speaks)]
fn any_speaks(literals: &Vec<Literal>, row: &Row, of_state: bool) -> bool
    ensures { result ≡ any_true (numbered [] []) (bit row.now) (all_exposed of_state (views literals.now.items)) }
{
    for literal in literals {
        if speaks(literal, row, of_state) {
            return true;
        }
    }
    false
}

/// Returns a row that is set for each derived atom that depends on a `does` sentence or, with `of_state`, on a `true`
/// sentence. The rules must be in the order of a ranking.
pub fn dependence(
    alloc: Global,
    rules: &[Rule],
    atoms: usize,
    of_state: bool,
) -> Result<Row, AllocError>
    ensures { IfOk result (λ row. row ≡ row_after (numbered [] []) (unset atoms) (exposed_rules of_state (rules_of rules.now))) }
{
    let mut row = Row::unset(alloc, atoms)?;
    for rule in rules {
        if any_speaks(&rule.body, &row, of_state) {
            row.set(rule.head);
        }
    }
    Ok(row)
}
