//! A JSON value whose texts are borrowed from the document: read whole, and asked for what it is.
//! What its members mean is the readers' business.
ghost use Rattle.std.specs.Prelude.{◌≡◌, ◌<◌, None, Some, length, map, option_map, is_some, IfOk, IfErr, OnOk};
ghost use Rattle.json.specs.Value.{items_view, members_view, value_view};
ghost use Rattle.serde_json.specs.Find.{as_bool, as_object, as_str, get};
ghost use Rattle.dhat_json.specs.Ahead.{TellsNone, value_ahead};
ghost use Rattle.dhat_json.specs.DataOf.{data_of, has_data, items_have_data, members_have_data};
ghost use Rattle.dhat_json.specs.KeyName.{key_name};
ghost use Rattle.dhat_json.specs.Kinds.{as_list, as_whole};

use crate::fault::DhatFault;
use crate::key::Key;
use crate::number::{is_in_range, whole_number};
use json::{Error, Reader, Value};
use std::alloc::Global;

/// The next value, whole. Arrays and objects may nest `depth` deep.
pub(crate) fn next_value<'a>(
    alloc: Global,
    reader: &mut Reader<'a>,
    depth: usize,
) -> Result<Value<'a>, DhatFault>
    ensures read { IfOk result (λ v. value_ahead depth reader.old ≡ Some (data_of v, reader.new)) }
    ensures shorter { OnOk result (length reader.new < length reader.old) }
    ensures fault { IfErr result (λ fault. TellsNone fault (value_ahead depth reader.old)) }
{
    let value = match Value::read(alloc, reader, depth) {
        Ok(value) => value,
        Err(Error::OutOfMemory) => return Err(DhatFault::NoMemory),
        Err(Error::Invalid) => return Err(DhatFault::NotJson),
        Err(Error::TooLong | Error::DuplicateKey) => unreachable!(),
    };
    if !has_data(&value) {
        drop(value);
        return Err(DhatFault::NotJson);
    }
    Ok(value)
}

/// Whether no number in the value is out of range.
#[cycle(has_data)]
fn has_data(value: &Value) -> bool
    ensures { result ≡ has_data (value_view value.now) }
{
    match value {
        Value::Null | Value::Bool(_) | Value::String(_) => true,
        Value::Number(text) => is_in_range(text),
        Value::Array(items) => items_have_data(items),
        Value::Object(members) => members_have_data(members),
    }
}

#[cycle(has_data)]
fn items_have_data(items: &Vec<Value>) -> bool
    ensures { result ≡ items_have_data (items_view items.now.items) }
{
    for item in items {
        if !has_data(item) {
            return false;
        }
    }
    true
}

#[cycle(has_data)]
fn members_have_data(members: &Vec<(&str, Value)>) -> bool
    ensures { result ≡ members_have_data (members_view members.now.items) }
{
    for member in members {
        if !has_data(&member.1) {
            return false;
        }
    }
    true
}

/// The value at a key: the last one where the key stands more than once.
pub(crate) fn member<'v, 'a>(value: &'v Value<'a>, key: Key) -> Option<&'v Value<'a>>
    ensures { option_map (λ v. data_of v.now) result ≡ get (key_name key) (data_of value.now) }
{
    value.get(key.name())
}

/// Whether the value is an object.
pub(crate) fn is_object(value: &Value) -> bool
    ensures { result ≡ is_some (as_object (data_of value.now)) }
{
    match value {
        Value::Object(_) => true,
        Value::Null | Value::Bool(_) | Value::Number(_) | Value::String(_) | Value::Array(_) => {
            false
        }
    }
}

/// A whole number.
pub(crate) fn as_whole(value: &Value) -> Option<u64>
    ensures { result ≡ as_whole (data_of value.now) }
{
    match value {
        Value::Number(text) => whole_number(text),
        Value::Null | Value::Bool(_) | Value::String(_) | Value::Array(_) | Value::Object(_) => {
            None
        }
    }
}

/// A flag.
pub(crate) fn as_flag(value: &Value) -> Option<bool>
    ensures { result ≡ as_bool (data_of value.now) }
{
    value.as_bool()
}

/// A text.
pub(crate) fn as_text<'a>(value: &Value<'a>) -> Option<&'a str>
    ensures { option_map (λ s. s.now) result ≡ as_str (data_of value.now) }
{
    value.as_str()
}

/// The items of an array.
pub(crate) fn as_list<'v, 'a>(value: &'v Value<'a>) -> Option<&'v [Value<'a>]>
    ensures { option_map (λ list. map data_of list.now) result ≡ as_list (data_of value.now) }
{
    match value {
        Value::Array(items) => Some(items.as_slice()),
        Value::Null | Value::Bool(_) | Value::Number(_) | Value::String(_) | Value::Object(_) => {
            None
        }
    }
}
