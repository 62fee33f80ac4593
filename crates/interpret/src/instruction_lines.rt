//! The lines of a new instruction: its names that are new, and then its own.
#![tactic(auto, using(hp_num::proofs::Laws::extends_same, hp_num::proofs::Laws::extends_more, hp_num::proofs::Laws::extends_trans))]

ghost use Rattle.std.specs.Prelude.{◌≡◌, [], ◌∷◌, OnOk};
ghost use Rattle.std.specs.Option.{option_copied};
ghost use Rattle.hp_num.specs.Extends.{Extends};
ghost use Rattle.interpret.specs.AddsNames.{AddsNames};
ghost use Rattle.interpret.specs.AppendsLines.{AppendsInEach, AppendsNumbers};
ghost use Rattle.interpret.specs.FrameKept.{instruction_of, module_names, names_in, names_of_call, names_of_frame, numbers_in, numbers_of_frame};
ghost use Rattle.interpret.specs.Resolved.{module_number};

use crate::name_table::NameTable;
use crate::resolved::ResolvedIp;
use crate::symbol_frame::{SymbolFrame, next_frame};
use hp_num::{NoMemory, put_bytes, put_hex};
use ht_lines::{Item, put_item};
use ht_trace::LineError;

/// Adds the names that an instruction calls for, and appends the line of each that is new in the file version.
///
/// `TooMany` comes exactly where there would be more names than 2^32 - 1. After an error more names and more bytes may
/// stand at the end.
pub fn add_names(
    names: &mut NameTable,
    version: u8,
    found: &ResolvedIp,
    out: &mut Vec<u8>,
) -> Result<(), LineError>
    ensures adds { AddsNames version (names_of_call found.now) names.old names.new out.old out.new
        result }
    ensures kept { Extends out.old.items out.new.items }
{
    add_module_name(names, version, found.module_name, out)?;
    add_frames(names, version, found.texts, out)
}

/// Adds the name of a module, where there is one.
fn add_module_name(
    names: &mut NameTable,
    version: u8,
    name: Option<&[u8]>,
    out: &mut Vec<u8>,
) -> Result<(), LineError>
    ensures adds { AddsNames version (module_names name.entry) names.old names.new out.old out.new
        result }
    ensures kept { Extends out.old.items out.new.items }
{
    match name {
        Some(name) => add_name(names, version, name, out),
        None => Ok(()),
    }
}

/// Adds the names of the frames that the texts of a symbol say.
fn add_frames(
    names: &mut NameTable,
    version: u8,
    texts: Option<&[u8]>,
    out: &mut Vec<u8>,
) -> Result<(), LineError>
    ensures adds { AddsNames version (names_in texts.entry) names.old names.new out.old out.new
        result }
    ensures kept { Extends out.old.items out.new.items }
{
    let mut rest = texts;
    'frames: while let Some(texts) = rest {
        let (frame, after) = next_frame(texts);
        add_frame(names, version, &frame, out)?;
        rest = after;
    }
    Ok(())
}

fn add_frame(
    names: &mut NameTable,
    version: u8,
    frame: &SymbolFrame,
    out: &mut Vec<u8>,
) -> Result<(), LineError>
    ensures adds { AddsNames version (names_of_frame frame.now) names.old names.new out.old out.new
        result }
    ensures kept { Extends out.old.items out.new.items }
{
    add_name(names, version, frame.function, out)?;
    match frame.place {
        Some(place) => add_name(names, version, place.file, out),
        None => Ok(()),
    }
}

fn add_name(
    names: &mut NameTable,
    version: u8,
    name: &[u8],
    out: &mut Vec<u8>,
) -> Result<(), LineError>
    ensures adds { AddsNames version (name.now ∷ []) names.old names.new out.old out.new
        result }
    ensures kept { Extends out.old.items out.new.items }
{
    let is_new = names.add(name)?;
    if !is_new {
        return Ok(());
    }
    put_item(version, &Item::Str { text: name }, out)?;
    Ok(())
}

/// Appends the line of an instruction whose names are held. On `NoMemory`, a part of it may stand at the end of `out`.
pub fn put_instruction(
    names: &NameTable,
    found: &ResolvedIp,
    out: &mut Vec<u8>,
) -> Result<(), NoMemory>
    ensures appended { OnOk result
        (AppendsInEach (instruction_of names.now found.now ∷ []) out.old out.new) }
    ensures kept { Extends out.old.items out.new.items }
{
    put_bytes(out, b"i")?;
    put_number(out, found.ip)?;
    put_number(out, module_number(names, found.module_name))?;
    put_frames(names, found.texts, out)?;
    put_bytes(out, b"\n")
}

/// The number of a module's name, and 0 for none.
fn module_number(names: &NameTable, name: Option<&[u8]>) -> u64
    ensures { result ≡ module_number names.now (option_copied name.entry) }
{
    match name {
        Some(name) => names.number(name),
        None => 0,
    }
}

/// Appends the numbers of the frames that the texts of a symbol say.
fn put_frames(names: &NameTable, texts: Option<&[u8]>, out: &mut Vec<u8>) -> Result<(), NoMemory>
    ensures appended { OnOk result
        (AppendsNumbers (numbers_in names.now texts.entry) out.old out.new) }
    ensures kept { Extends out.old.items out.new.items }
{
    let mut rest = texts;
    'frames: while let Some(texts) = rest {
        let (frame, after) = next_frame(texts);
        put_frame(names, &frame, out)?;
        rest = after;
    }
    Ok(())
}

/// Appends the numbers of a frame.
fn put_frame(names: &NameTable, frame: &SymbolFrame, out: &mut Vec<u8>) -> Result<(), NoMemory>
    ensures appended { OnOk result
        (AppendsNumbers (numbers_of_frame names.now frame.now) out.old out.new) }
    ensures kept { Extends out.old.items out.new.items }
{
    put_number(out, names.number(frame.function))?;
    match frame.place {
        Some(place) => {
            put_number(out, names.number(place.file))?;
            put_number(out, place.line)
        }
        None => Ok(()),
    }
}

/// Appends a number after a blank.
fn put_number(out: &mut Vec<u8>, n: u64) -> Result<(), NoMemory>
    ensures appended { OnOk result (AppendsNumbers (n ∷ []) out.old out.new) }
    ensures kept { Extends out.old.items out.new.items }
{
    put_bytes(out, b" ")?;
    put_hex(out, n)
}
