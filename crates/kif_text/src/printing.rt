//! The canonical text of an expression.
ghost use Rattle.std.specs.Prelude.{◌≡◌, ◌++◌, IfOk, OnOk};
ghost use Rattle.game_core.specs.Canonical.{canonical, members};
ghost use Rattle.game_core.specs.Expression.{IsProper};
ghost use Rattle.kif_text.specs.Laws.{SpellsAlone};
ghost use Rattle.kif_text.specs.View.{view, views};

use crate::expr::Expr;
use game_core::Text;
use std::alloc::{AllocError, Global};

/// Prints the canonical text: one space between the members of a list, and no space inside its parentheses.
pub fn print(alloc: Global, expr: &Expr) -> Result<Text, AllocError>
    ensures canonical { IfOk result (λ t. t ≡ canonical (view expr.now)) }
    // If the expression is proper, the text spells this expression and no other.
    ensures alone { IfOk result (λ t. IsProper (view expr.now) → SpellsAlone t (view expr.now)) }
{
    let mut bytes = Vec::new(alloc);
    write(expr, &mut bytes)?;
    Ok(Text { bytes })
}

#[cycle(write)]
fn write(expr: &Expr, out: &mut Vec<u8>) -> Result<(), AllocError>
    ensures { OnOk result (out.new.items ≡ out.old.items ++ canonical (view expr.now)) }
{
    match expr {
        Expr::Atom(text) => {
            out.extend_from_slice(text.as_slice())?;
            Ok(())
        }
        Expr::List(list) => {
            out.push(b'(')?;
            write_members(list, out)?;
            out.push(b')')?;
            Ok(())
        }
    }
}

#[cycle(write)]
fn write_members(list: &Vec<Expr>, out: &mut Vec<u8>) -> Result<(), AllocError>
    ensures { OnOk result (out.new.items ≡ out.old.items ++ members (views list.now.items)) }
{
    for (i, member) in list.iter().enumerate() {
        if i > 0 {
            out.push(b' ')?;
        }
        write(member, out)?;
    }
    Ok(())
}
