//! The members of an object, written one by one as JSON. After `NoMemory` the writer is of no use: part of a member may
//! stand in it. In which order they stand is decided by the callers.
ghost use Rattle.std.specs.Prelude.{OnOk, All, IsUtf8, IfSome};
ghost use Rattle.serde_json.specs.Data.{member, boolean, string};
ghost use Rattle.dhat_json.specs.Adds.{Adds, AddsValue};
ghost use Rattle.dhat_json.specs.DhatValue.{optional_text, optional_whole, texts_data, whole, wholes_data};
ghost use Rattle.dhat_json.specs.KeyName.{key_name};

use crate::key::Key;
use crate::lists::{FrameList, Texts};
use hp_num::{NoMemory, Text};
use json::Writer;

pub(crate) fn put_whole(out: &mut Writer, key: Key, n: u64) -> Result<(), NoMemory>
    ensures { OnOk result (Adds out.old out.new (member (key_name key) (whole n))) }
{
    out.key(key.name())?;
    out.u64(n)?;
    Ok(())
}

pub(crate) fn put_optional_whole(out: &mut Writer, key: Key, n: Option<u64>) -> Result<(), NoMemory>
    ensures { OnOk result (Adds out.old out.new (optional_whole (key_name key) n)) }
{
    match n {
        Some(n) => put_whole(out, key, n),
        None => Ok(()),
    }
}

pub(crate) fn put_flag(out: &mut Writer, key: Key, flag: bool) -> Result<(), NoMemory>
    ensures { OnOk result (Adds out.old out.new (member (key_name key) (boolean flag))) }
{
    out.key(key.name())?;
    out.boolean(flag)?;
    Ok(())
}

pub(crate) fn put_text(out: &mut Writer, key: Key, text: &Text) -> Result<(), NoMemory>
    requires { IsUtf8 text.now }
    ensures { OnOk result (Adds out.old out.new (member (key_name key) (string text.now))) }
{
    out.key(key.name())?;
    put_string(out, text)
}

/// Writes the member with the text, and nothing where there is none.
pub(crate) fn put_optional_text(
    out: &mut Writer,
    key: Key,
    text: &Option<Text>,
) -> Result<(), NoMemory>
    requires { IfSome text.now IsUtf8 }
    ensures { OnOk result (Adds out.old out.new (optional_text (key_name key) text.now)) }
{
    match text {
        Some(text) => put_text(out, key, text),
        None => Ok(()),
    }
}

pub(crate) fn put_table(out: &mut Writer, key: Key, texts: &Texts) -> Result<(), NoMemory>
    requires { All IsUtf8 texts.now }
    ensures { OnOk result (Adds out.old out.new (member (key_name key) (texts_data texts.now))) }
{
    out.key(key.name())?;
    put_strings(out, texts.as_slice())
}

pub(crate) fn put_frames(out: &mut Writer, key: Key, frames: &FrameList) -> Result<(), NoMemory>
    ensures { OnOk result (Adds out.old out.new (member (key_name key) (wholes_data frames.now))) }
{
    out.key(key.name())?;
    put_numbers(out, frames.as_slice())
}

fn put_string(out: &mut Writer, text: &Text) -> Result<(), NoMemory>
    requires { IsUtf8 text.now }
    ensures { OnOk result (AddsValue out.old out.new (string text.now)) }
{
    let Ok(text) = str::from_utf8(text.bytes()) else {
        unreachable!();
    };
    out.string(text)?;
    Ok(())
}

fn put_strings(out: &mut Writer, texts: &[Text]) -> Result<(), NoMemory>
    requires { All IsUtf8 texts.now }
    ensures { OnOk result (AddsValue out.old out.new (texts_data texts.now)) }
{
    out.begin_array()?;
    for text in texts {
        put_string(out, text)?;
    }
    out.end_array()?;
    Ok(())
}

fn put_numbers(out: &mut Writer, numbers: &[u64]) -> Result<(), NoMemory>
    ensures { OnOk result (AddsValue out.old out.new (wholes_data numbers.now)) }
{
    out.begin_array()?;
    for n in numbers {
        out.u64(*n)?;
    }
    out.end_array()?;
    Ok(())
}
