//! Expressions that are read, printed, and printed in lower case, and texts that are refused.
use crate::holding::holds;
use kif_text::{Expr, KifFault, copy, fold, print, read_all, read_one};
use std::alloc::{AllocError, Global};
use std::test::Fail;

fn prints(alloc: Global, expr: &Expr, wanted: &str) -> Result<bool, AllocError> {
    Ok(print(alloc, expr)?.as_slice() == wanted.as_bytes())
}

/// Whether the expression prints as the first text, and its copy in lower case as the second.
fn prints_both(alloc: Global, expr: &Expr, wanted: (&str, &str)) -> Result<bool, AllocError> {
    let mut folded = copy(alloc, expr)?;
    fold(&mut folded);
    Ok(prints(alloc, expr, wanted.0)? && prints(alloc, &folded, wanted.1)?)
}

#[test]
fn several_expressions_are_read(rt: HostRuntime) -> Result<(), Fail> {
    let found = read_all(rt.alloc(), b"; head\n(ROLE\tRed)( )a;x\n(b(C))")?;
    let table = [
        ("(ROLE Red)", "(role red)"),
        ("()", "()"),
        ("a", "a"),
        ("(b (C))", "(b (c))"),
    ];
    holds(&rt, found.len() == table.len(), "as many as there are");
    for (expr, wanted) in found.iter().zip(table) {
        holds(&rt, prints_both(rt.alloc(), expr, wanted)?, wanted.0);
    }
    Ok(())
}

fn is_refused(alloc: Global, text: &[u8], fault: KifFault) -> bool {
    read_one(alloc, text).err() == Some(fault)
}

#[test]
fn first_fault_is_named(rt: HostRuntime) {
    use KifFault::{BadByte, More, Nothing, Unclosed, Unopened};
    let table = [
        (b"(a (b)".as_slice(), Unclosed(0)),
        (b"(a (b", Unclosed(3)),
        (b"a)", Unopened(1)),
        (b"", Nothing),
        (b"a b", More(2)),
        (b"a (b", More(2)),
        (b"a\x80", BadByte(1)),
    ];
    for (text, fault) in table {
        holds(&rt, is_refused(rt.alloc(), text, fault), "a faulty text");
    }
}

/// The text of `depth` nested lists.
fn nested(alloc: Global, depth: usize) -> Result<Vec<u8>, AllocError> {
    let mut text = vec![in alloc; b'('; depth]?;
    for _ in 0..depth {
        text.push(b')')?;
    }
    Ok(text)
}

#[test]
fn sixty_four_levels_are_read(rt: HostRuntime) -> Result<(), Fail> {
    let most = nested(rt.alloc(), 64)?;
    holds(&rt, read_one(rt.alloc(), &most).is_ok(), "64 levels");
    let more = nested(rt.alloc(), 65)?;
    let is_named = is_refused(rt.alloc(), &more, KifFault::TooDeep(64));
    holds(&rt, is_named, "65 levels");
    Ok(())
}

#[test]
fn a_mebibyte_is_read(rt: HostRuntime) -> Result<(), Fail> {
    let mut text = vec![in rt.alloc(); b' '; 1_048_576]?;
    let is_read = is_refused(rt.alloc(), &text, KifFault::Nothing);
    holds(&rt, is_read, "the longest text");
    text.push(b' ')?;
    let is_named = is_refused(rt.alloc(), &text, KifFault::TooLong);
    holds(&rt, is_named, "one byte more");
    Ok(())
}
