//! Ground terms.
ghost use Rattle.std.specs.Prelude.{◌≡◌, ◌&&◌, ◌==◌, IfOk, nat_le};
ghost use Rattle.game_core.specs.Bytes.{is_atom_byte, lower};
ghost use Rattle.game_core.specs.Expression.{depth, depth_all};
ghost use Rattle.kif_text.specs.View.{view, views};
ghost use Rattle.rule_sentences.specs.Terms.{is_word, are_small_atom_bytes, is_term, are_terms, begins_with_atom, term_text, has_variable, have_variable, is_variable};

use game_core::{MAX_DEPTH, Text};
use kif_text::{Expr, print};
use std::alloc::{AllocError, Global};

fn is_variable(bytes: &[u8]) -> bool
    ensures { result ≡ is_variable bytes.now }
{
    match bytes.first() {
        Some(byte) => *byte == b'?',
        None => false,
    }
}

/// Whether some atom in the expression is a variable.
#[cycle(has_variable)]
pub fn has_variable(expr: &Expr) -> bool
    ensures { result ≡ has_variable (view expr.now) }
{
    match expr {
        Expr::Atom(text) => is_variable(text.as_slice()),
        Expr::List(members) => have_variable(members),
    }
}

#[cycle(has_variable)]
fn have_variable(members: &Vec<Expr>) -> bool
    ensures { result ≡ have_variable (views members.now.items) }
{
    for member in members {
        if has_variable(member) {
            return true;
        }
    }
    false
}

/// Whether the byte is an atom byte and not a capital. Four range tests are faster than one test for each
/// refused byte.
#[tactic(auto, using(std::proofs::lemmas::Bool::Decides::nat_tests))]
fn is_small_atom_byte(byte: u8) -> bool
    ensures { result ≡ is_atom_byte byte && (lower byte == byte) }
{
    matches!(byte, b'['..=b'~' | b'*'..=b':' | b'<'..=b'@' | b'!'..=b'\'')
}

fn are_small_atom_bytes(bytes: &[u8]) -> bool
    ensures { result ≡ are_small_atom_bytes bytes.now }
{
    for byte in bytes {
        if !is_small_atom_byte(*byte) {
            return false;
        }
    }
    true
}

/// Whether the bytes are an atom in lower case, and not a variable.
fn is_word(bytes: &[u8]) -> bool
    ensures { result ≡ is_word bytes.now }
{
    !bytes.is_empty() && !is_variable(bytes) && are_small_atom_bytes(bytes)
}

fn begins_with_atom(members: &[Expr]) -> bool
    ensures { result ≡ begins_with_atom (views members.now) }
{
    match members.first() {
        Some(Expr::Atom(_)) => true,
        _ => false,
    }
}

#[cycle(is_term)]
fn is_term(expr: &Expr) -> bool
    ensures { result ≡ is_term (view expr.now) }
{
    match expr {
        Expr::Atom(text) => is_word(text.as_slice()),
        Expr::List(members) => begins_with_atom(members) && are_terms(members),
    }
}

#[cycle(is_term)]
fn are_terms(members: &Vec<Expr>) -> bool
    ensures { result ≡ are_terms (views members.now.items) }
{
    for member in members {
        if !is_term(member) {
            return false;
        }
    }
    true
}

/// Whether the lists in the expression are nested at most `lists` deep.
#[cycle(nests_at_most)]
pub fn nests_at_most(expr: &Expr, lists: usize) -> bool
    ensures { result ≡ nat_le (depth (view expr.now)) lists }
{
    match expr {
        Expr::Atom(_) => true,
        Expr::List(members) => lists > 0 && all_nest_at_most(members, lists - 1),
    }
}

#[cycle(nests_at_most)]
fn all_nest_at_most(members: &Vec<Expr>, lists: usize) -> bool
    ensures { result ≡ nat_le (depth_all (views members.now.items)) lists }
{
    for member in members {
        if !nests_at_most(member, lists) {
            return false;
        }
    }
    true
}

/// The canonical text of a ground term. Returns `None` if the expression is not a ground term.
pub fn term_text(alloc: Global, expr: &Expr) -> Result<Option<Text>, AllocError>
    ensures { IfOk result (λ o. o ≡ term_text (view expr.now)) }
{
    if is_term(expr) && nests_at_most(expr, MAX_DEPTH) {
        let text = print(alloc, expr)?;
        Ok(Some(text))
    } else {
        Ok(None)
    }
}
