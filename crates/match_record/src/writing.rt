//! Writes the parts of a record as JSON.
ghost use Rattle.std.specs.Prelude.{◌≡◌, All, IfSome, OnOk, map, option_copied};
ghost use Rattle.std.specs.Cow.{cow_slice_items};
ghost use Rattle.std.specs.Str.{IsAscii};
ghost use Rattle.serde_json.specs.Data.{string};
ghost use Rattle.match_record.specs.Internal.Written.{IsWritten};
ghost use Rattle.record_reading.specs.RecordTree.{cause_tree, texts_tree, text_or_null, whole_tree};

use game_core::Text;
use json::Writer;
use match_book::Cause;
use std::alloc::{AllocError, Global};
use std::borrow::CowSlice;
use std::str::from_utf8_unchecked;

/// Writes a text of ASCII bytes.
pub fn write_text(out: &mut Writer, text: &[u8]) -> Result<(), AllocError>
    requires { IsAscii text.now }
    ensures before { out.new.before ≡ out.old.before }
    ensures written { OnOk result (IsWritten out.old out.new (string text.now)) }
{
    // ASCII is UTF-8. The proof shows that all bytes are ASCII, so no test is needed.
    let text = unsafe { from_utf8_unchecked(text) };
    out.string(text)?;
    Ok(())
}

/// Writes the text, or null if there is none.
pub fn write_text_or_null(out: &mut Writer, text: Option<&[u8]>) -> Result<(), AllocError>
    requires { IfSome (option_copied text) IsAscii }
    ensures before { out.new.before ≡ out.old.before }
    ensures written { OnOk result (IsWritten out.old out.new (text_or_null (option_copied text.entry))) }
{
    match text {
        Some(text) => write_text(out, text)?,
        None => out.null()?,
    }
    Ok(())
}

/// Writes the texts as a list.
pub fn write_texts(out: &mut Writer, texts: &[Text]) -> Result<(), AllocError>
    requires { All IsAscii texts.now }
    ensures before { out.new.before ≡ out.old.before }
    ensures written { OnOk result (IsWritten out.old out.new (texts_tree texts.now)) }
{
    out.begin_array()?;
    for text in texts {
        write_text(out, text.as_slice())?;
    }
    out.end_array()?;
    Ok(())
}

/// Writes the borrowed texts as a list.
pub fn write_lent_texts(
    out: &mut Writer,
    texts: &[CowSlice<'_, u8, Global>],
) -> Result<(), AllocError>
    requires { All IsAscii (map cow_slice_items texts.now) }
    ensures before { out.new.before ≡ out.old.before }
    ensures written { OnOk result (IsWritten out.old out.new (texts_tree (map cow_slice_items texts.now))) }
{
    out.begin_array()?;
    for text in texts {
        write_text(out, text.as_slice())?;
    }
    out.end_array()?;
    Ok(())
}

/// Writes a whole number.
pub fn write_whole(out: &mut Writer, number: u64) -> Result<(), AllocError>
    ensures before { out.new.before ≡ out.old.before }
    ensures written { OnOk result (IsWritten out.old out.new (whole_tree number)) }
{
    out.u64(number)?;
    Ok(())
}

/// Writes why the match is aborted, or null if it is not.
pub fn write_cause(alloc: Global, out: &mut Writer, cause: Option<Cause>) -> Result<(), AllocError>
    ensures before { out.new.before ≡ out.old.before }
    ensures written { OnOk result (IsWritten out.old out.new (cause_tree cause)) }
{
    match cause {
        None => out.null()?,
        Some(Cause::Asked) => out.string("asked")?,
        Some(Cause::NoLegal(role)) => out.string(&format!(in alloc; "nolegal {role}")?)?,
        Some(Cause::NoGoal(role)) => out.string(&format!(in alloc; "nogoal {role}")?)?,
        Some(Cause::TooLong) => out.string("toolong")?,
        Some(Cause::AllRetired) => out.string("allretired")?,
    }
    Ok(())
}
