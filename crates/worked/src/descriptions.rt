//! Descriptions that are refused, and the first error of each.
use crate::holding::holds;
use ground_rules::{LoadFault, load};
use kif_text::read_all;
use std::alloc::Global;
use std::test::Fail;

fn is_refused(alloc: Global, text: &[u8], fault: LoadFault) -> Result<bool, Fail> {
    let sentences = read_all(alloc, text)?;
    Ok(load(alloc, sentences.as_slice()).err() == Some(fault))
}

#[test]
fn first_fault_is_named(rt: HostRuntime) -> Result<(), Fail> {
    use LoadFault::{BadForm, Cyclic, Depends, Misplaced, NoRole, RoleTwice, Variable};
    let table = [
        ("(role a) (<= p (not q)) (<= q p)", Cyclic),
        ("(role a) (<= p q) (<= q p)", Cyclic),
        ("(role a) (<= p (not q)) (<= q p ?x)", Variable(2)),
        ("(role a) (terminal)", BadForm(1)),
        ("(role a) (true x)", Misplaced(1)),
        ("(role a) (role A)", RoleTwice),
        ("", NoRole),
        ("(role a) (<= p (does a x)) (<= (legal a x) p)", Depends),
        ("(role a) (<= (init s) p) (<= p (true s))", Depends),
    ];
    for (text, fault) in table {
        holds(&rt, is_refused(rt.alloc(), text.as_bytes(), fault)?, text);
    }
    Ok(())
}

#[test]
fn seventeen_roles_are_too_many(rt: HostRuntime) -> Result<(), Fail> {
    let mut text = Vec::new(rt.alloc());
    for letter in b'a'..=b'q' {
        text.extend_from_slice(b"(role ")?;
        text.push(letter)?;
        text.push(b')')?;
    }
    let is_named = is_refused(rt.alloc(), &text, LoadFault::TooLarge)?;
    holds(&rt, is_named, "17 roles");
    Ok(())
}
