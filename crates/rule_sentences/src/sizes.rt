//! Size limits of descriptions.
ghost use Rattle.std.specs.Prelude.{◌≡◌, ◌-◌, ◌∷◌, IfOk, OnOk, length, nat_le};
ghost use Rattle.game_core.specs.Limits.{max_atomic_sentences};
ghost use Rattle.rule_sentences.specs.SentenceViews.{view, views, rules_of};
ghost use Rattle.rule_sentences.specs.Descriptions.{with_new, with_all_new, each_once};
ghost use Rattle.rule_sentences.specs.Sizes.{same_atomic, atomics_in, all_atomics_in, atomics};

use crate::sentence::{Atomic, Derived, Literal, Rule};
use game_core::Limits;
use indexmap::IndexSet;
use std::alloc::{AllocError, Global};

/// The largest number of distinct moves in the `legal` heads of one role.
pub const MAX_MOVES: usize = 4096;

fn add_atomic(set: &mut IndexSet<Atomic>, atomic: &Atomic) -> Result<(), AllocError>
    ensures { OnOk result (set.new.keys ≡ with_new same_atomic set.old.keys atomic.now) }
{
    if !set.contains(atomic) {
        set.insert(atomic.clone()?)?;
    }
    Ok(())
}

#[cycle(add_literal)]
fn add_literal(set: &mut IndexSet<Atomic>, literal: &Literal) -> Result<(), AllocError>
    ensures { OnOk result (set.new.keys ≡ with_all_new same_atomic set.old.keys (atomics_in (view literal.now))) }
{
    match literal {
        Literal::Atomic(atomic) => add_atomic(set, atomic),
        Literal::Not(inner) => add_literal(set, inner),
        Literal::Or(literals) => add_all_literals(set, literals),
        Literal::Distinct(_, _) => Ok(()),
    }
}

#[cycle(add_literal)]
fn add_all_literals(set: &mut IndexSet<Atomic>, literals: &Vec<Literal>) -> Result<(), AllocError>
    ensures { OnOk result (set.new.keys ≡ with_all_new same_atomic set.old.keys (all_atomics_in (views literals.now.items))) }
{
    for literal in literals {
        add_literal(set, literal)?;
    }
    Ok(())
}

fn atomic_head(head: &Derived) -> Result<Atomic, AllocError>
    ensures { IfOk result (λ a. a ≡ Atomic.Derived head.now) }
{
    Ok(Atomic::Derived(head.clone()?))
}

fn add_rule(set: &mut IndexSet<Atomic>, rule: &Rule) -> Result<(), AllocError>
    ensures { OnOk result (set.new.keys ≡ with_all_new same_atomic set.old.keys (Atomic.Derived rule.now.head ∷ all_atomics_in (views rule.now.body.items))) }
{
    let head = atomic_head(&rule.head)?;
    add_atomic(set, &head)?;
    add_all_literals(set, &rule.body)
}

/// The number of distinct atomic sentences in the heads and literals of the rules.
pub fn count_atomic_sentences(alloc: Global, rules: &[Rule]) -> Result<usize, AllocError>
    ensures { IfOk result (λ n. n ≡ length (each_once same_atomic (atomics (rules_of rules.now)))) }
{
    let mut set = IndexSet::new(alloc);
    for rule in rules {
        add_rule(&mut set, rule)?;
    }
    Ok(set.len())
}

/// Subtracts one from `room` for each atomic sentence of the literal, including repeated ones, and stops at 0.
#[cycle(room_beside)]
fn room_beside(literal: &Literal, room: usize) -> usize
    ensures { result ≡ room - length (atomics_in (view literal.now)) }
{
    match literal {
        Literal::Atomic(_) => room.saturating_sub(1),
        Literal::Not(inner) => room_beside(inner, room),
        Literal::Or(literals) => room_beside_all(literals, room),
        Literal::Distinct(_, _) => room,
    }
}

#[cycle(room_beside)]
fn room_beside_all(literals: &Vec<Literal>, room: usize) -> usize
    ensures { result ≡ room - length (all_atomics_in (views literals.now.items)) }
{
    let mut left = room;
    for literal in literals {
        left = room_beside(literal, left);
    }
    left
}

/// Whether the rules are within the limit of atomic sentences even if each repetition counts.
fn name_few_atomic_sentences(rules: &[Rule], limits: Limits) -> bool
    ensures { result ≡ nat_le (length (atomics (rules_of rules.now))) (max_atomic_sentences limits) }
{
    let mut left = limits.atomic_sentences() + 1;
    for rule in rules {
        left = room_beside_all(&rule.body, left.saturating_sub(1));
    }
    left > 0
}

/// Whether the rules are within the limit of distinct atomic sentences. If they are within the limits even when
/// repeated sentences count, the function allocates no set. Otherwise it counts the distinct ones.
pub fn have_few_atomic_sentences(
    alloc: Global,
    rules: &[Rule],
    limits: Limits,
) -> Result<bool, AllocError>
    ensures { IfOk result (λ b. b ≡ nat_le (length (each_once same_atomic (atomics (rules_of rules.now)))) (max_atomic_sentences limits)) }
{
    if name_few_atomic_sentences(rules, limits) {
        return Ok(true);
    }
    let count = count_atomic_sentences(alloc, rules)?;
    Ok(count <= limits.atomic_sentences())
}
