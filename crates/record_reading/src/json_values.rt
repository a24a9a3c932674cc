//! Texts, lists and numbers taken from JSON. If a value is missing, these functions return `None`.
ghost use Rattle.std.specs.Prelude.{◌≡◌, IfOk, List, is_some, map, option_and_then, option_copied, option_map, ℕ};
ghost use Rattle.serde_json.specs.Data.{Data, string};
ghost use Rattle.serde_json.specs.Find.{as_array, as_null, as_str, get, get_member};
ghost use Rattle.serde_json.specs.View.{items_view, members_view, view};
ghost use Rattle.record_reading.specs.Internal.JsonValues.{data_in, data_of};
ghost use Rattle.record_reading.specs.RecordTree.{as_whole, list_tree, text_lists_tree, texts_tree};
ghost use Rattle.record_reading.specs.Internal.Shown.{AnyShape, Shows};

use crate::record_parts::TextLists;
use game_core::{Text, Texts};
use serde_json::{Map, Value};
use std::alloc::{AllocError, Global};

/// Whether there is a value and it is null.
pub fn is_null(found: Option<&Value>) -> bool
    ensures { result ≡ is_some (option_and_then as_null (data_in found.entry)) }
{
    match found {
        Some(value) => value.is_null(),
        None => false,
    }
}

/// The bytes, if the value is a text.
pub fn bytes_in(found: Option<&Value>) -> Option<&[u8]>
    ensures { option_copied result ≡ option_and_then as_str (data_in found.entry) }
{
    let text = found?.as_str()?;
    Some(text.as_bytes())
}

/// The members, if the value is a list.
pub fn members_in(found: Option<&Value>) -> Option<&[Value]>
    ensures { option_map (λ v. items_view v.now) result ≡ option_and_then as_array (data_in found.entry) }
{
    let members = found?.as_array()?;
    Some(members.as_slice())
}

/// The number, if it is written as a whole number without a sign: not `50.0`, `5e1` or `-0`.
pub fn whole_in(found: Option<&Value>) -> Option<u64>
    ensures { result ≡ option_and_then as_whole (data_in found.entry) }
{
    found?.as_u64()
}

/// Takes the text, if the value is a text.
fn into_text(found: Option<Value>) -> Option<Text>
    ensures { result ≡ option_and_then as_str (data_of found) }
{
    match found {
        Some(Value::String(text)) => Some(Text::from_string(text)),
        _ => None,
    }
}

/// Takes the members, if the value is a list.
fn into_members(found: Option<Value>) -> Option<Vec<Value>>
    ensures { option_map (λ v. items_view v.items) result ≡ option_and_then as_array (data_of found) }
{
    match found {
        Some(Value::Array(members)) => Some(members),
        _ => None,
    }
}

/// Takes the members, if the value is an object. Any other value has no members.
pub fn into_object(alloc: Global, tree: Value) -> Map<String, Value>
    ensures { (key : List ℕ) → get_member key (members_view result.entries) ≡ get key (view tree) }
{
    match tree {
        Value::Object(members) => members,
        _ => Map::new(alloc),
    }
}

/// A type with exactly one JSON form for each value.
pub trait FromJson: Sized + Drop {
    ghost written: { Self → Data };

    /// Takes a value of this type, if `found` is the JSON of such a value.
    fn value_in(alloc: Global, found: Option<Value>) -> Result<Option<Self>, AllocError>
        ensures { IfOk result (λ o. Shows written AnyShape (data_of found) o) };
}

/// Takes a list of values of this type, if `found` is the JSON of such a list.
pub fn list_in<T: FromJson>(
    alloc: Global,
    found: Option<Value>,
) -> Result<Option<Vec<T>>, AllocError>
    ensures { IfOk result (λ o. Shows (λ xs. list_tree (map T.written xs)) AnyShape (data_of found) (option_map (λ v. v.items) o)) }
{
    let Some(members) = into_members(found) else {
        return Ok(None);
    };
    let mut items = Vec::with_capacity(alloc, members.len())?;
    for member in members {
        match T::value_in(alloc, Some(member))? {
            Some(value) => items.push(value)?,
            None => return Ok(None),
        }
    }
    Ok(Some(items))
}

impl FromJson for Text {
    ghost written = { string };

    fn value_in(alloc: Global, found: Option<Value>) -> Result<Option<Text>, AllocError> {
        Ok(into_text(found))
    }
}

impl FromJson for Texts {
    ghost written = { texts_tree };

    fn value_in(alloc: Global, found: Option<Value>) -> Result<Option<Texts>, AllocError> {
        match list_in(alloc, found)? {
            Some(items) => Ok(Some(Texts { items })),
            None => Ok(None),
        }
    }
}

impl FromJson for TextLists {
    ghost written = { text_lists_tree };

    fn value_in(alloc: Global, found: Option<Value>) -> Result<Option<TextLists>, AllocError> {
        match list_in(alloc, found)? {
            Some(items) => Ok(Some(TextLists { items })),
            None => Ok(None),
        }
    }
}
