//! The pass over packed rules.
ghost use Rattle.std.specs.Prelude.{◌≡◌, ◌≤◌, ◌*◌, length, take, drop};
ghost use Rattle.ground_rules.specs.Fit.{truth, any_true, all_true};
ghost use Rattle.ground_rules.specs.Numbered.{bit, numbered, view, views};
ghost use Rattle.packed_rules.specs.Bits.{bits_of};
ghost use Rattle.packed_rules.specs.Internal.PlacedRules.{AreTestsCut};
ghost use Rattle.packed_rules.specs.Internal.PackedPass.{all_pass, all_agree, packed_after, tests_after, rules_in, IsCut};

use crate::bits::{BitRow, is_on, is_on_after, is_on_before, turn_on_after};
use crate::rule_table::RuleTable;
use crate::rules::{MoveTest, RuleSize, Test};
use ground_rules::makes;
use numbered_rules::numbered::Literal;

/// Whether the literal is true. The row has `size` values: `terms` terms and then the derived atoms. `joint` has the term of
/// each role's move.
#[cycle(holds)]
fn holds(literal: &Literal, words: &[u64], size: usize, terms: usize, joint: &[usize]) -> bool
    requires { size ≤ length words.now * 64 }
    ensures { result ≡ truth (numbered (take terms (bits_of words.now size)) joint.now) (bit (drop terms (bits_of words.now size))) (view literal.now) }
{
    match literal {
        Literal::Holds(atom) => is_on_after(words, size, terms, *atom),
        Literal::InState(term) => is_on_before(words, size, terms, *term),
        Literal::Does(role, term) => makes(joint, *role, *term),
        Literal::Not(inner) => !holds(inner, words, size, terms, joint),
        Literal::Or(literals) => any_holds(literals, words, size, terms, joint),
        Literal::Known(truth) => *truth,
    }
}

#[cycle(holds)]
fn any_holds(
    literals: &Vec<Literal>,
    words: &[u64],
    size: usize,
    terms: usize,
    joint: &[usize],
) -> bool
    requires { size ≤ length words.now * 64 }
    ensures { result ≡ any_true (numbered (take terms (bits_of words.now size)) joint.now) (bit (drop terms (bits_of words.now size))) (views literals.now.items) }
{
    for literal in literals {
        if holds(literal, words, size, terms, joint) {
            return true;
        }
    }
    false
}

fn all_hold(literals: &[Literal], words: &[u64], size: usize, terms: usize, joint: &[usize]) -> bool
    requires { size ≤ length words.now * 64 }
    ensures { result ≡ all_true (numbered (take terms (bits_of words.now size)) joint.now) (bit (drop terms (bits_of words.now size))) (views literals.now) }
{
    for literal in literals {
        if !holds(literal, words, size, terms, joint) {
            return false;
        }
    }
    true
}

fn all_pass(tests: &[Test], words: &[u64], size: usize) -> bool
    requires { size ≤ length words.now * 64 }
    ensures { result ≡ all_pass (bits_of words.now size) tests.now }
{
    for test in tests {
        if is_on(words, size, test.place as usize) != test.value {
            return false;
        }
    }
    true
}

fn all_agree(tests: &[MoveTest], joint: &[usize]) -> bool
    ensures { result ≡ all_agree joint.now tests.now }
{
    for test in tests {
        if makes(joint, test.role as usize, test.term as usize) != test.value {
            return false;
        }
    }
    true
}

/// Evaluates the rules in order, and sets the head of a rule if its literals are true. Each rule takes its literals from
/// the front of the remaining ones.
fn sweep(table: &RuleTable, words: &mut [u64], size: usize, terms: usize, joint: &[usize])
    requires size { size ≤ length words.old * 64 }
    requires cut { IsCut table.now }
    ensures { bits_of words.new size ≡ packed_after terms joint.now (bits_of words.old size) (rules_in table.now) }
{
    let mut tests = table.tests.as_slice();
    let mut moves = table.moves.as_slice();
    let mut others = table.others.as_slice();
    for rule in &table.rules {
        let (own_tests, later_tests) = tests.split_at(rule.tests);
        if rule.moves == 0 && rule.others == 0 {
            if all_pass(own_tests, words, size) {
                turn_on_after(words, size, terms, rule.head);
            }
        } else {
            let (own_moves, later_moves) = moves.split_at(rule.moves);
            let (own_others, later_others) = others.split_at(rule.others);
            // Tests come first, since they fail most often.
            if all_pass(own_tests, words, size)
                && all_agree(own_moves, joint)
                && all_hold(own_others, words, size, terms, joint)
            {
                turn_on_after(words, size, terms, rule.head);
            }
            moves = later_moves;
            others = later_others;
        }
        tests = later_tests;
    }
}

/// Evaluates the rules in order, and sets the head of a rule if its tests pass. For rules that have only tests, this
/// loop is twice as fast.
fn sweep_tests(rules: &[RuleSize], tests: &[Test], words: &mut [u64], size: usize, terms: usize)
    requires size { size ≤ length words.old * 64 }
    requires cut { AreTestsCut rules.now tests.now }
    ensures { bits_of words.new size ≡ tests_after terms (bits_of words.old size) rules.now tests.now }
{
    let mut left = tests;
    for rule in rules {
        let (own, later) = left.split_at(rule.tests);
        if all_pass(own, words, size) {
            turn_on_after(words, size, terms, rule.head);
        }
        left = later;
    }
}

/// Evaluates the rules of the table, with the faster loop if the rules have only tests.
fn sweep_table(table: &RuleTable, words: &mut [u64], size: usize, terms: usize, joint: &[usize])
    requires size { size ≤ length words.old * 64 }
    requires cut { IsCut table.now }
    ensures { bits_of words.new size ≡ packed_after terms joint.now (bits_of words.old size) (rules_in table.now) }
{
    if table.moves.len() == 0 && table.others.len() == 0 {
        sweep_tests(&table.rules, &table.tests, words, size, terms);
    } else {
        sweep(table, words, size, terms, joint);
    }
}

/// The row after a pass over the rules. The loop works on the words, because this is faster.
pub fn pass(table: &RuleTable, bits: BitRow, terms: usize, joint: &[usize]) -> BitRow
    requires { IsCut table.now }
    ensures { result ≡ packed_after terms joint.now bits (rules_in table.now) }
{
    let mut bits = bits;
    let size = bits.size;
    sweep_table(table, &mut bits.words, size, terms, joint);
    bits
}
