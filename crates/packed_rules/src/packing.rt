//! Packs numbered rules.
ghost use Rattle.std.specs.Prelude.{◌≡◌, ℕ, ◌++◌, IfOk, IfSome, OnOk, map, true};
ghost use Rattle.ground_rules.specs.Numbered.{view, rule_of, rules_of};
ghost use Rattle.packed_rules.specs.Internal.PackedPass.{IsTestOf, IsMoveTestOf, IsPacked, IsPackedTable};
ghost use Rattle.packed_rules.specs.Internal.PlacedRules.{placed};

use crate::rule_table::RuleTable;
use crate::rules::{MoveTest, PackedRule, RuleSize, Test};
use numbered_rules::numbered::{Literal, Rule};
use std::alloc::{AllocError, Global};

#[cycle(copy)]
fn copy(alloc: Global, literal: &Literal) -> Result<Literal, AllocError>
    ensures { IfOk result (λ l. view l ≡ view literal.now) }
{
    match literal {
        Literal::Holds(atom) => Ok(Literal::Holds(*atom)),
        Literal::InState(term) => Ok(Literal::InState(*term)),
        Literal::Does(role, term) => Ok(Literal::Does(*role, *term)),
        Literal::Not(inner) => {
            let inner = copy(alloc, inner)?;
            Ok(Literal::Not(Box::new(alloc, inner)?))
        }
        Literal::Or(literals) => Ok(Literal::Or(copy_all(alloc, literals)?)),
        Literal::Known(truth) => Ok(Literal::Known(*truth)),
    }
}

#[cycle(copy)]
fn copy_all(alloc: Global, literals: &Vec<Literal>) -> Result<Vec<Literal>, AllocError>
    ensures { IfOk result (λ v. map view v.items ≡ map view literals.now.items) }
{
    let mut copies = Vec::with_capacity(alloc, literals.len())?;
    for literal in literals {
        copies.push(copy(alloc, literal)?)?;
    }
    Ok(copies)
}

/// The test that the value at this place is true, if the place fits into 32 bits.
fn test_at(place: usize) -> Option<Test>
    ensures { IfSome result (λ t. (t.place ≡ place) × (t.value ≡ true)) }
{
    let place = u32::try_from(place).ok()?;
    Some(Test { place, value: true })
}

/// The literal as a test, if it depends on one value of a row. The row has `terms` terms and then the derived atoms.
fn test_of(literal: &Literal, terms: usize) -> Option<Test>
    ensures { IfSome result (IsTestOf terms (view literal.now)) }
{
    match literal {
        Literal::Holds(atom) => test_at(terms.checked_add(*atom)?),
        Literal::InState(term) if *term < terms => test_at(*term),
        Literal::Not(inner) => {
            let test = test_of(inner, terms)?;
            Some(Test {
                place: test.place,
                value: !test.value,
            })
        }
        _ => None,
    }
}

/// The test that the role makes this move, if both numbers fit into 32 bits.
fn move_test_at(role: usize, term: usize) -> Option<MoveTest>
    ensures { IfSome result (λ t. (t.role ≡ role) × (t.term ≡ term) × (t.value ≡ true)) }
{
    let role = u32::try_from(role).ok()?;
    let term = u32::try_from(term).ok()?;
    Some(MoveTest {
        role,
        term,
        value: true,
    })
}

fn move_test_of(literal: &Literal) -> Option<MoveTest>
    ensures { IfSome result (λ t. (terms : ℕ) → IsMoveTestOf terms (view literal.now) t) }
{
    match literal {
        Literal::Does(role, term) => move_test_at(*role, *term),
        Literal::Not(inner) => {
            let asked = move_test_of(inner)?;
            Some(MoveTest {
                role: asked.role,
                term: asked.term,
                value: !asked.value,
            })
        }
        _ => None,
    }
}

fn pack_rule(alloc: Global, rule: &Rule, terms: usize) -> Result<PackedRule, AllocError>
    ensures { IfOk result (λ p. IsPacked terms (placed p) (rule_of rule.now)) }
{
    let mut tests = Vec::new(alloc);
    let mut moves = Vec::new(alloc);
    let mut others = Vec::new(alloc);
    for literal in &rule.body {
        match test_of(literal, terms) {
            Some(test) => tests.push(test)?,
            None => match move_test_of(literal) {
                Some(test) => moves.push(test)?,
                None => others.push(copy(alloc, literal)?)?,
            },
        }
    }
    Ok(PackedRule {
        head: rule.head,
        tests,
        moves,
        others,
    })
}

fn append<T: Drop>(items: Vec<T>, into: &mut Vec<T>) -> Result<(), AllocError>
    ensures { OnOk result (into.new.items ≡ into.old.items ++ items.items) }
{
    for item in items {
        into.push(item)?;
    }
    Ok(())
}

/// Packs the rules, in order, for a row with `terms` terms.
pub fn pack_rules(alloc: Global, rules: &[Rule], terms: usize) -> Result<RuleTable, AllocError>
    ensures { IfOk result (λ t. IsPackedTable terms t (rules_of rules.now)) }
{
    let mut sizes = Vec::with_capacity(alloc, rules.len())?;
    let mut tests = Vec::new(alloc);
    let mut moves = Vec::new(alloc);
    let mut others = Vec::new(alloc);
    for rule in rules {
        let packed = pack_rule(alloc, rule, terms)?;
        sizes.push(RuleSize {
            head: packed.head,
            tests: packed.tests.len(),
            moves: packed.moves.len(),
            others: packed.others.len(),
        })?;
        append(packed.tests, &mut tests)?;
        append(packed.moves, &mut moves)?;
        append(packed.others, &mut others)?;
    }
    Ok(RuleTable {
        rules: sizes,
        tests,
        moves,
        others,
    })
}
