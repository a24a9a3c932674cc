ghost use Rattle.std.specs.Prelude.{◌≡◌, ◌≢◌, IfOk, IfErr, Some, None};
ghost use Rattle.game_core.specs.Expression.{Expressions, max_depth};
ghost use Rattle.kif_text.specs.declared.fault.KifFault.TheVariants.{Memory};
ghost use Rattle.kif_text.specs.View.{view, views};
ghost use Rattle.kif_text.specs.Spelling.{SpellsAll, SpellsOne, SpellsUpTo};
ghost use Rattle.kif_text.specs.Faults.{IsFault, IsFaultUpTo, one_expression, any_number};
ghost use Rattle.kif_text.specs.Machine.{read, read_single};
ghost use Rattle.kif_text.specs.Internal.Following.{Gives};
ghost use Rattle.kif_text.specs.Reading.{reading};

use crate::expr::Expr;
use crate::fault::KifFault;
use crate::reader::Reader;
use std::alloc::Global;

/// The largest number of bytes of a text.
const MAX_LENGTH: usize = 1_048_576;

/// Reads all expressions of a text of at most 1,048,576 bytes, with at most 64 nested lists.
pub fn read_all(alloc: Global, text: &[u8]) -> Result<Vec<Expr>, KifFault>
    ensures spelled { IfOk result (λ v. SpellsAll text.now (views v.items)) }
    ensures fault { IfErr result (IsFault any_number text.now) }
    // If the text spells expressions within the limits, the only possible error is `Memory`.
    ensures refused { IfErr result (λ e. e ≢ Memory
        → (xs : Expressions) → ¬ (SpellsAll text.now xs)) }
{
    read_up_to(alloc, text, MAX_LENGTH)
}

/// Reads all expressions of a text of at most `limit` bytes, with at most 64 nested lists.
pub fn read_up_to(alloc: Global, text: &[u8], limit: usize) -> Result<Vec<Expr>, KifFault>
    ensures spelled { IfOk result (λ v. SpellsUpTo limit text.now (views v.items)) }
    ensures fault { IfErr result (IsFaultUpTo limit any_number text.now) }
    // If the text spells expressions within the limits, the only possible error is `Memory`.
    ensures refused { IfErr result (λ e. e ≢ Memory
        → (xs : Expressions) → ¬ (SpellsUpTo limit text.now xs)) }
{
    if text.len() > limit {
        return Err(KifFault::TooLong);
    }
    read(alloc, text)
}

/// Reads the one expression of a text of at most 1,048,576 bytes, with at most 64 nested lists.
pub fn read_one(alloc: Global, text: &[u8]) -> Result<Expr, KifFault>
    ensures spelled { IfOk result (λ x. SpellsOne text.now (view x)) }
    ensures fault { IfErr result (IsFault one_expression text.now) }
    ensures found { IfOk result (λ x. reading text.now ≡ Some (view x)) }
    // If the text spells one expression within the limits, the only possible error is `Memory`.
    ensures refused { IfErr result (λ e. e ≢ Memory → reading text.now ≡ None) }
{
    if text.len() > MAX_LENGTH {
        return Err(KifFault::TooLong);
    }
    read_single(alloc, text)
}

fn read(alloc: Global, text: &[u8]) -> Result<Vec<Expr>, KifFault>
    ensures { Gives (λ v. views v.items) result (read max_depth text.now) }
{
    let mut reader = Reader::new(alloc);
    for (at, byte) in text.iter().enumerate() {
        reader.step(alloc, at, *byte)?;
    }
    reader.finish(alloc)
}

fn read_single(alloc: Global, text: &[u8]) -> Result<Expr, KifFault>
    ensures { Gives view result (read_single text.now) }
{
    let mut reader = Reader::new(alloc);
    for (at, byte) in text.iter().enumerate() {
        reader.single_step(alloc, at, *byte)?;
    }
    let mut found = reader.finish(alloc)?;
    match found.pop() {
        Some(expr) => Ok(expr),
        None => Err(KifFault::Nothing),
    }
}
