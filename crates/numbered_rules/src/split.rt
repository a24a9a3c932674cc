//! The rules in two parts: those with heads that do not depend on moves, and the others.
ghost use Rattle.std.specs.Prelude.{◌≡◌, not, filter, IfOk};
ghost use Rattle.numbered_rules.specs.Numbered.{bit};

use crate::numbered::Rule;
use crate::row::Row;
use std::alloc::{AllocError, Global};

/// Rules in two parts, each in the order of a ranking.
#[derive(Drop)]
pub struct SplitRules {
    pub rest: Vec<Rule>,
    pub turn: Vec<Rule>,
}

/// Separates the rules with heads that are not set in the row from the rules with heads that are set. Both parts keep their order.
pub fn split(alloc: Global, rules: Vec<Rule>, row: &Row) -> Result<SplitRules, AllocError>
    ensures rest { IfOk result (λ s. s.rest.items ≡ filter (λ r. not (bit row.now r.head)) rules.items) }
    ensures turn { IfOk result (λ s. s.turn.items ≡ filter (λ r. bit row.now r.head) rules.items) }
{
    let mut rest = Vec::new(alloc);
    let mut turn = Vec::new(alloc);
    for rule in rules {
        if row.is_set(rule.head) {
            turn.push(rule)?;
        } else {
            rest.push(rule)?;
        }
    }
    Ok(SplitRules { rest, turn })
}
