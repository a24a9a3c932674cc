//! Expressions in memory.
ghost use Rattle.std.specs.Prelude.{◌≡◌, IfOk, map};
ghost use Rattle.game_core.specs.Bytes.{lower};
ghost use Rattle.game_core.specs.Expression.{folded, all_folded};
ghost use Rattle.kif_text.specs.View.{view, views};

use game_core::Text;
use std::alloc::{AllocError, Global};

/// An expression: an atom, or a list in parentheses.
///
/// `copy`, `fold`, `print` and dropping an expression recurse into nested lists, so each level takes stack. The reader
/// accepts at most 64 nested lists. If you build an expression in another way, nest at most 1,000.
#[derive(Drop)]
pub enum Expr {
    /// The bytes of an atom.
    Atom(Text),
    /// The members of a list.
    List(Vec<Expr>),
}

/// Copies the expression.
#[cycle(copy)]
pub fn copy(alloc: Global, expr: &Expr) -> Result<Expr, AllocError>
    ensures { IfOk result (λ e. view e ≡ view expr.now) }
{
    match expr {
        Expr::Atom(text) => Ok(Expr::Atom(text.copy(alloc)?)),
        Expr::List(members) => Ok(Expr::List(copy_all(alloc, members)?)),
    }
}

#[cycle(copy)]
fn copy_all(alloc: Global, members: &Vec<Expr>) -> Result<Vec<Expr>, AllocError>
    ensures { IfOk result (λ v. views v.items ≡ views members.now.items) }
{
    let mut copies = Vec::with_capacity(alloc, members.len())?;
    for member in members {
        copies.push(copy(alloc, member)?)?;
    }
    Ok(copies)
}

/// Converts the ASCII capitals in the atoms to lower case.
#[cycle(fold)]
pub fn fold(expr: &mut Expr)
    ensures { view expr.new ≡ folded (view expr.old) }
{
    match expr {
        Expr::Atom(text) => fold_text(text),
        Expr::List(members) => fold_all(members),
    }
}

#[cycle(fold)]
fn fold_all(members: &mut Vec<Expr>)
    ensures { views members.new.items ≡ all_folded (views members.old.items) }
{
    for i in 0..members.len() {
        fold(&mut members[i]);
    }
}

/// Copies the expression in lower case.
pub fn folded_copy(alloc: Global, expr: &Expr) -> Result<Expr, AllocError>
    ensures { IfOk result (λ e. view e ≡ folded (view expr.now)) }
{
    let mut copied = copy(alloc, expr)?;
    fold(&mut copied);
    Ok(copied)
}

/// Copies the expressions in lower case.
pub fn folded_copies(alloc: Global, exprs: &[Expr]) -> Result<Vec<Expr>, AllocError>
    ensures each { IfOk result (λ v. map view v.items ≡ map folded (map view exprs.now)) }
    // This clause treats the expressions as the members of a list.
    ensures members { IfOk result (λ v. views v.items ≡ all_folded (views exprs.now)) }
{
    let mut copies = Vec::with_capacity(alloc, exprs.len())?;
    for expr in exprs {
        copies.push(folded_copy(alloc, expr)?)?;
    }
    Ok(copies)
}

fn fold_text(text: &mut Text)
    ensures { text.new ≡ map lower text.old }
{
    fold_bytes(&mut text.bytes);
}

fn fold_bytes(bytes: &mut [u8])
    ensures { bytes.new ≡ map lower bytes.old }
{
    for byte in bytes.iter_mut() {
        *byte = lower(*byte);
    }
}

#[tactic(auto, using(std::proofs::lemmas::Bool::Decides::nat_tests))]
fn lower(byte: u8) -> u8
    ensures { result ≡ lower byte }
{
    byte.to_ascii_lowercase()
}
