//! The atoms that each derived atom needs.
ghost use Rattle.std.specs.Prelude.{◌≡◌, ℕ, ◌<◌, ◌++◌, IfOk, OnOk, length, replicate, []};
ghost use Rattle.numbered_rules.specs.Numbered.{view, views, rules_of};
ghost use Rattle.numbered_rules.specs.Order.{needs_at};
ghost use Rattle.numbered_rules.specs.Needs.{atoms_in, all_atoms_in, needs_of};

use crate::numbered::{Literal, Rule};
use crate::rank::Needs;
use std::alloc::{AllocError, Global};

#[cycle(add_atoms)]
fn add_atoms(literal: &Literal, size: usize, out: &mut Vec<usize>) -> Result<(), AllocError>
    ensures { OnOk result (out.new.items ≡ out.old.items ++ atoms_in size (view literal.now)) }
{
    match literal {
        Literal::Holds(atom) => {
            if *atom < size {
                out.push(*atom)?;
            }
            Ok(())
        }
        Literal::InState(_) | Literal::Does(_, _) | Literal::Known(_) => Ok(()),
        Literal::Not(inner) => add_atoms(inner, size, out),
        Literal::Or(literals) => add_all_atoms(literals, size, out),
    }
}

#[cycle(add_atoms)]
fn add_all_atoms(
    literals: &Vec<Literal>,
    size: usize,
    out: &mut Vec<usize>,
) -> Result<(), AllocError>
    ensures { OnOk result (out.new.items ≡ out.old.items ++ all_atoms_in size (views literals.now.items)) }
{
    for literal in literals {
        add_atoms(literal, size, out)?;
    }
    Ok(())
}

fn no_needs(alloc: Global, size: usize) -> Result<Vec<Needs>, AllocError>
    ensures { IfOk result (λ v. v.items ≡ replicate size []) }
{
    let mut needs = Vec::with_capacity(alloc, size)?;
    for _ in 0..size {
        needs.push(Needs {
            atoms: Vec::new(alloc),
        })?;
    }
    Ok(needs)
}

/// Returns, for each atom below `size`, the atoms below `size` in the bodies of its rules.
pub fn needs_of(alloc: Global, rules: &[Rule], size: usize) -> Result<Vec<Needs>, AllocError>
    ensures size { IfOk result (λ v. length v.items ≡ size) }
    ensures needs { IfOk result (λ v. (n : ℕ) → n < size → needs_at v.items n ≡ needs_of size n (rules_of rules.now)) }
{
    let mut needs = no_needs(alloc, size)?;
    for rule in rules {
        if rule.head < needs.len() {
            let atoms = &mut needs[rule.head].atoms;
            add_all_atoms(&rule.body, size, atoms)?;
        }
    }
    Ok(needs)
}
