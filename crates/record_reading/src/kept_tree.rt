//! The tree of a record's text, without the values that no record can have.
//!
//! A list or an object takes many times the memory of its text, so the reader skips such values instead of storing them.
ghost use Rattle.std.specs.Prelude.{◌≡◌, ◌<◌, ◌≤◌, ◌∷◌, ◌⊎◌, IfErr, IfOk, List, OnOk, None, Some, length, map, option_map};
ghost use Rattle.json.specs.Json.{items, members, read_key, value};
ghost use Rattle.json.specs.Reads.{token_of};
ghost use Rattle.serde_json.specs.Data.{Data, Members, no_members};
ghost use Rattle.serde_json.specs.Read.{converted, of_items, of_json, of_members};
ghost use Rattle.serde_json.specs.View.{items_of, members_view, view};
ghost use Rattle.record_reading.specs.Internal.KeptTree.{AreKeptMembers, IsKeptTree, IsRefused, kept_list, kept_of, member_kept, with_one};
ghost use Rattle.record_reading.specs.LawfulRecord.{IsJson};
ghost use Rattle.record_reading.specs.RecordTree.{key_text};
ghost use Rattle.record_reading.specs.declared.record_parts.Key.{Key as AnyKey};
ghost use Rattle.record_reading.specs.declared.verify_fault.VerifyFault.TheVariants.{Memory, NotJson};

use crate::json_numbers::number_in;
use crate::record_parts::Key;
use crate::verify_fault::VerifyFault;
use json::{Reader, Scratch, Token};
use serde_json::{Map, Value};
use std::alloc::{AllocError, Global};

/// The largest depth of nested lists and objects.
const MAX_DEPTH: usize = 127;

/// The largest depth of nested lists in a value of a record.
const MAX_LISTS: usize = 2;

/// The next key, or `None` at the end of the object.
fn next_key<'a>(reader: &mut Reader<'a>) -> Result<Option<&'a str>, VerifyFault>
    ensures ok { IfOk result (λ k. read_key reader.old ≡ Some (option_map (λ s. s.now) k, reader.new)) }
    ensures err { IfErr result (λ fault. (fault ≡ NotJson) × (read_key reader.old ≡ None)) }
{
    match reader.next_key() {
        Ok(key) => Ok(key),
        Err(_) => Err(VerifyFault::NotJson),
    }
}

/// The items and one more at the end, if all are kept.
fn with_item(
    items: Option<Vec<Value>>,
    item: Option<Value>,
) -> Result<Option<Vec<Value>>, AllocError>
    ensures { IfOk result (λ o. option_map (λ v. map view v.items) o ≡ with_one (option_map (λ v. map view v.items) items) (option_map view item)) }
{
    match (items, item) {
        (Some(mut items), Some(item)) => {
            items.push(item)?;
            Ok(Some(items))
        }
        _ => Ok(None),
    }
}

/// Reads the value that begins with the token. Keeps the value if its lists nest at most `lists` deep, the innermost
/// lists have only texts, and it contains neither objects nor truth values.
#[cycle(kept)]
fn value_of(
    alloc: Global,
    token: Token<'_>,
    reader: &mut Reader<'_>,
    lists: usize,
    depth: usize,
) -> Result<Option<Value>, VerifyFault>
    ensures ok { IfOk result (λ o. (d : Data) × (converted of_json (value depth (token_of token.entry ∷ reader.old)) ≡ Some (d, reader.new)) × (option_map view o ≡ kept_of lists d)) }
    ensures no_longer { OnOk result (length reader.new ≤ length reader.old) }
    ensures err { IfErr result (IsRefused (converted of_json (value depth (token_of token.entry ∷ reader.old)))) }
{
    match token {
        Token::String(text) => Ok(Some(Value::String(String::from_str(alloc, text)?))),
        Token::Number(text) => match number_in(text) {
            Some(number) => Ok((lists > 0).then_some(Value::Number(number))),
            None => Err(VerifyFault::NotJson),
        },
        Token::Null => Ok((lists > 0).then_some(Value::Null)),
        Token::Bool(_) => Ok(None),
        Token::EndObject | Token::EndArray | Token::Key(_) | Token::Bad => Err(
            VerifyFault::NotJson,
        ),
        Token::BeginArray => {
            if depth == 0 {
                return Err(VerifyFault::NotJson);
            }
            match items_of(alloc, reader, lists, depth - 1)? {
                Some(mut items) => {
                    items.shrink_to_fit();
                    Ok(Some(Value::Array(items)))
                }
                None => Ok(None),
            }
        }
        Token::BeginObject => {
            if depth == 0 {
                return Err(VerifyFault::NotJson);
            }
            pass_members(alloc, reader, depth - 1)?;
            Ok(None)
        }
    }
}

/// Reads the items of a list. Keeps the items only if it keeps each of them.
#[cycle(kept)]
fn items_of(
    alloc: Global,
    reader: &mut Reader<'_>,
    lists: usize,
    depth: usize,
) -> Result<Option<Vec<Value>>, VerifyFault>
    ensures ok { IfOk result (λ o. (ds : List Data) × (converted of_items (items (value depth) (length reader.old) reader.old) ≡ Some (items_of ds, reader.new)) × (option_map (λ v. map view v.items) o ≡ kept_list lists ds)) }
    ensures shorter { OnOk result (length reader.new < length reader.old) }
    ensures err { IfErr result (IsRefused (converted of_items (items (value depth) (length reader.old) reader.old))) }
{
    let below = lists.saturating_sub(1);
    let mut kept = (lists > 0).then_some(Vec::new(alloc));
    'items: while !reader.take_end_array() {
        let token = reader.next().ok_or(VerifyFault::NotJson)?;
        let item = value_of(alloc, token, reader, below, depth)?;
        kept = with_item(kept, item)?;
    }
    Ok(kept)
}

/// Reads the members of an object, and keeps none.
#[cycle(kept)]
fn pass_members(alloc: Global, reader: &mut Reader<'_>, depth: usize) -> Result<(), VerifyFault>
    ensures ok { OnOk result ((ms : Members) × (converted (λ js. of_members js no_members) (members (value depth) (length reader.old) reader.old) ≡ Some (ms, reader.new))) }
    ensures shorter { OnOk result (length reader.new < length reader.old) }
    ensures err { IfErr result (IsRefused (converted (λ js. of_members js no_members) (members (value depth) (length reader.old) reader.old))) }
{
    'members: while let Some(_) = next_key(reader)? {
        let token = reader.next().ok_or(VerifyFault::NotJson)?;
        drop(value_of(alloc, token, reader, 0, depth)?);
    }
    Ok(())
}

/// How deep lists may nest in the value at this key of a record. The reader keeps no value at a key that no record has.
fn lists_at(text: &str) -> usize
    ensures known { (key : AnyKey) → key_text key ≡ text.now → result ≡ 2 }
    ensures few { (result ≡ 2) ⊎ (result ≡ 0) }
{
    for key in Key::ALL {
        if key.text() == text {
            return MAX_LISTS;
        }
    }
    0
}

/// Keeps a member at a key of a record. If the member is not kept, a truth value replaces it.
fn keep_member(
    alloc: Global,
    name: &str,
    lists: usize,
    member: Option<Value>,
    found: &mut Map<String, Value>,
) -> Result<(), AllocError>
    ensures { OnOk result (members_view found.new.entries ≡ member_kept name.now lists (option_map view member) (members_view found.old.entries)) }
{
    if lists > 0 {
        let key = String::from_str(alloc, name)?;
        drop(found.insert(key, member.unwrap_or(Value::Bool(false)))?);
    }
    Ok(())
}

/// Reads the members at the keys of a record.
fn record_members(alloc: Global, reader: &mut Reader<'_>) -> Result<Map<String, Value>, VerifyFault>
    ensures ok { IfOk result (λ m. (ms : Members) × (converted (λ js. of_members js no_members) (members (value 126) (length reader.old) reader.old) ≡ Some (ms, reader.new)) × AreKeptMembers ms (members_view m.entries)) }
    ensures err { IfErr result (IsRefused (converted (λ js. of_members js no_members) (members (value 126) (length reader.old) reader.old))) }
{
    let mut found = Map::new(alloc);
    'members: while let Some(name) = next_key(reader)? {
        let lists = lists_at(name);
        let token = reader.next().ok_or(VerifyFault::NotJson)?;
        let member = value_of(alloc, token, reader, lists, MAX_DEPTH - 1)?;
        keep_member(alloc, name, lists, member, &mut found)?;
    }
    Ok(found)
}

/// Reads a value, and keeps the parts that a record can have.
fn record_value(alloc: Global, reader: &mut Reader<'_>) -> Result<Value, VerifyFault>
    ensures ok { IfOk result (λ v. (d : Data) × (converted of_json (value 127 reader.old) ≡ Some (d, reader.new)) × IsKeptTree d (view v)) }
    ensures err { IfErr result (IsRefused (converted of_json (value 127 reader.old))) }
{
    let token = reader.next().ok_or(VerifyFault::NotJson)?;
    match token {
        Token::BeginObject => Ok(Value::Object(record_members(alloc, reader)?)),
        other => {
            drop(value_of(alloc, other, reader, 0, MAX_DEPTH)?);
            Ok(Value::Null)
        }
    }
}

/// The tree of a JSON text, with the parts that a record can have.
pub fn tree_of(alloc: Global, text: &[u8]) -> Result<Value, VerifyFault>
    ensures ok { IfOk result (λ v. (tree : Data) × IsJson text.now tree × IsKeptTree tree (view v)) }
    ensures err { IfErr result (λ fault. (fault ≡ Memory) ⊎ ((fault ≡ NotJson) × ((tree : Data) → ¬ IsJson text.now tree))) }
{
    let Ok(text) = std::str::from_utf8(text) else {
        return Err(VerifyFault::NotJson);
    };
    let mut scratch = Scratch::new(alloc);
    let mut reader = Reader::new(text, &mut scratch)?;
    let tree = record_value(alloc, &mut reader)?;
    if reader.next().is_some() {
        return Err(VerifyFault::NotJson);
    }
    Ok(tree)
}
