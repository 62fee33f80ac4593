//! The texts of frames, from what the tables hold of them. Which frames a stack has is no part of it.
#![tactic(auto, using(hp_num::proofs::Laws::extends_same, hp_num::proofs::Laws::extends_more, hp_num::proofs::Laws::extends_trans))]

ghost use Rattle.std.specs.Prelude.{◌≡◌, ℕ, List, [], ◌++◌, length, OnOk, OnErr};
ghost use Rattle.hp_num.specs.Extends.{Extends};
ghost use Rattle.ht_trace.specs.CallAnswers.{text_among};
ghost use Rattle.ht_trace.specs.FrameText.{address_text, found_text, name_text, place_text, text_at, text_of};

use crate::frame::{FrameAt, FrameFound, Style};
use crate::instructions::InstructionTable;
use crate::strings::StringTable;
use hp_num::{NoMemory, put_bytes, put_dec, put_hex};

/// Appends the text of a frame. On `NoMemory`, `out` holds what it held before.
pub fn put_text(
    strings: &StringTable,
    instructions: &InstructionTable,
    at: &FrameAt,
    style: Style,
    out: &mut Vec<u8>,
) -> Result<(), NoMemory>
    ensures appended { OnOk result
        (out.new.items ≡ out.old.items ++ text_among style strings.now instructions.now at.now) }
    ensures unchanged { OnErr result (out.new.items ≡ out.old.items) }
{
    let start = out.len();
    let done = match instructions.frame(at) {
        Some(found) => put_found(strings, &found, style, out),
        None => put_unnamed(at.index, out),
    };
    if done.is_err() {
        out.truncate(start);
    }
    done
}

/// Appends the text of the frame of instruction 0, or that of stack 0.
fn put_unnamed(index: u32, out: &mut Vec<u8>) -> Result<(), NoMemory>
    ensures appended { OnOk result
        (out.new.items ≡ out.old.items ++ text_of Style.Plain [] index None) }
    ensures kept { Extends out.old.items out.new.items }
{
    if index == 0 {
        return put_bytes(out, b"??");
    }
    put_bytes(out, b"(no stack)")
}

/// Appends the text of a frame that is named. On `NoMemory`, a part of it may stand at the end of `out`.
fn put_found(
    strings: &StringTable,
    found: &FrameFound,
    style: Style,
    out: &mut Vec<u8>,
) -> Result<(), NoMemory>
    ensures appended { OnOk result
        (out.new.items ≡ out.old.items ++ found_text style strings.now found.now) }
    ensures kept { Extends out.old.items out.new.items }
{
    put_address(found.ip, style, out)?;
    put_name(strings, found, style, out)?;
    put_place(strings, found, style, out)
}

/// Appends the address in front, in the addressed style.
fn put_address(ip: u64, style: Style, out: &mut Vec<u8>) -> Result<(), NoMemory>
    ensures appended { OnOk result (out.new.items ≡ out.old.items ++ address_text style ip) }
    ensures kept { Extends out.old.items out.new.items }
{
    match style {
        Style::Plain => Ok(()),
        Style::Addressed => {
            put_bytes(out, b"0x")?;
            put_hex(out, ip)?;
            put_bytes(out, b": ")
        }
    }
}

/// Appends the name of the function, or what stands for it where there is none.
fn put_name(
    strings: &StringTable,
    found: &FrameFound,
    style: Style,
    out: &mut Vec<u8>,
) -> Result<(), NoMemory>
    ensures appended { OnOk result
        (out.new.items ≡ out.old.items ++ name_text style strings.now found.now) }
    ensures kept { Extends out.old.items out.new.items }
{
    if found.frame.function != 0 {
        return put_string(strings, found.frame.function, out);
    }
    match style {
        Style::Plain => {
            put_bytes(out, b"0x")?;
            put_hex(out, found.ip)
        }
        Style::Addressed => put_bytes(out, b"???"),
    }
}

/// Appends the file and the line, or else the module, or else nothing.
fn put_place(
    strings: &StringTable,
    found: &FrameFound,
    style: Style,
    out: &mut Vec<u8>,
) -> Result<(), NoMemory>
    ensures appended { OnOk result
        (out.new.items ≡ out.old.items ++ place_text style strings.now found.now) }
    ensures kept { Extends out.old.items out.new.items }
{
    if found.frame.file != 0 {
        put_bytes(out, b" (")?;
        put_string(strings, found.frame.file, out)?;
        put_bytes(out, b":")?;
        put_dec(out, found.frame.line)?;
        return put_bytes(out, b")");
    }
    if found.module_string == 0 {
        return Ok(());
    }
    match style {
        Style::Plain => {
            put_bytes(out, b" in ")?;
            put_string(strings, found.module_string, out)
        }
        Style::Addressed => {
            put_bytes(out, b" (in ")?;
            put_string(strings, found.module_string, out)?;
            put_bytes(out, b")")
        }
    }
}

/// Appends the text of a string.
fn put_string(strings: &StringTable, n: u32, out: &mut Vec<u8>) -> Result<(), NoMemory>
    ensures appended { OnOk result (out.new.items ≡ out.old.items ++ text_at strings.now n) }
    ensures unchanged { OnErr result (out.new.items ≡ out.old.items) }
    ensures kept { Extends out.old.items out.new.items }
{
    match strings.text(n) {
        Some(text) => put_bytes(out, text),
        None => Ok(()),
    }
}
