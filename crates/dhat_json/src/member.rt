//! One member of a JSON value by its key: its value in the kind that the key has, or why there is none.
//! Which keys there are, and in which order they are read, is decided by the callers.
ghost use Rattle.std.specs.Prelude.{◌≡◌, None, Some, IfOk, IfErr, IfSome, IsUtf8};
ghost use Rattle.serde_json.specs.Find.{as_str, as_bool};
ghost use Rattle.dhat_json.specs.DataOf.{data_of};
ghost use Rattle.dhat_json.specs.DhatFault.{needed, allowed};
ghost use Rattle.dhat_json.specs.Kinds.{as_whole, as_list};
ghost use Rattle.dhat_json.specs.ProfileIn.{found, text_at, whole_at, flag_at};
ghost use Rattle.dhat_json.specs.ReadsPart.{IsListAt, ReadsPart};

use crate::fault::DhatFault;
use crate::key::Key;
use crate::value::{as_flag, as_list, as_text, as_whole, member};
use hp_num::Text;
use json::Value;
use std::alloc::Global;

/// A whole number that must be there.
pub(crate) fn read_whole(value: &Value, point: Option<u32>, key: Key) -> Result<u64, DhatFault>
    ensures { ReadsPart result (needed as_whole point key) (whole_at key) value.now }
{
    let Some(found) = member(value, key) else {
        return Err(DhatFault::MissingKey { point, key });
    };
    match as_whole(found) {
        Some(number) => Ok(number),
        None => Err(DhatFault::WrongKind { point, key }),
    }
}

/// A whole number of the profile that may be left out.
pub(crate) fn read_optional_whole(value: &Value, key: Key) -> Result<Option<u64>, DhatFault>
    ensures { ReadsPart result (allowed as_whole None key) (found as_whole key) value.now }
{
    let Some(found) = member(value, key) else {
        return Ok(None);
    };
    match as_whole(found) {
        Some(number) => Ok(Some(number)),
        None => Err(DhatFault::WrongKind { point: None, key }),
    }
}

/// A flag of the profile that must be there.
pub(crate) fn read_flag(value: &Value, key: Key) -> Result<bool, DhatFault>
    ensures { ReadsPart result (needed as_bool None key) (flag_at key) value.now }
{
    let Some(found) = member(value, key) else {
        return Err(DhatFault::MissingKey { point: None, key });
    };
    match as_flag(found) {
        Some(flag) => Ok(flag),
        None => Err(DhatFault::WrongKind { point: None, key }),
    }
}

/// A text of the profile that must be there.
pub(crate) fn read_text(alloc: Global, value: &Value, key: Key) -> Result<Text, DhatFault>
    ensures read { ReadsPart result (needed as_str None key) (text_at key) value.now }
    ensures utf8 { IfOk result IsUtf8 }
{
    let Some(found) = member(value, key) else {
        return Err(DhatFault::MissingKey { point: None, key });
    };
    let Some(text) = as_text(found) else {
        return Err(DhatFault::WrongKind { point: None, key });
    };
    Ok(Text::new(alloc, text.as_bytes())?)
}

/// A text of the profile that may be left out.
pub(crate) fn read_optional_text(
    alloc: Global,
    value: &Value,
    key: Key,
) -> Result<Option<Text>, DhatFault>
    ensures read { ReadsPart result (allowed as_str None key) (found as_str key) value.now }
    ensures utf8 { IfOk result (λ text. IfSome text IsUtf8) }
{
    let Some(found) = member(value, key) else {
        return Ok(None);
    };
    let Some(text) = as_text(found) else {
        return Err(DhatFault::WrongKind { point: None, key });
    };
    Ok(Some(Text::new(alloc, text.as_bytes())?))
}

/// The items of an array that must be there.
pub(crate) fn read_list<'v, 'a>(
    value: &'v Value<'a>,
    point: Option<u32>,
    key: Key,
) -> Result<&'v [Value<'a>], DhatFault>
    ensures ok { IfOk result (λ list. IsListAt point key value.now list.now) }
    ensures err { IfErr result
        (λ fault. needed as_list point key (data_of value.now) ≡ Some fault) }
{
    let Some(found) = member(value, key) else {
        return Err(DhatFault::MissingKey { point, key });
    };
    match as_list(found) {
        Some(list) => Ok(list),
        None => Err(DhatFault::WrongKind { point, key }),
    }
}
