//! From an item to its line, in the one written form.
//!
//! It knows no table: the numbers of an item are written as they are.
#![tactic(auto, using(hp_num::proofs::Laws::extends_same, hp_num::proofs::Laws::extends_more, hp_num::proofs::Laws::extends_trans))]

ghost use Rattle.std.specs.Prelude.{◌≡◌, ℕ, ◌^◌, ◌<◌, ◌≤◌, List, [], ◌∷◌, ◌++◌, length, Ok, Err, OnOk, OnErr};
ghost use Rattle.hp_num.specs.Hexadecimal.{hexadecimal};
ghost use Rattle.hp_num.specs.Extends.{Extends};
ghost use Rattle.ht_lines.specs.Fields.{numbers};
ghost use Rattle.ht_lines.specs.ItemContent.{content};
ghost use Rattle.ht_lines.specs.OneLine.{HasOneLineTexts, IsOneLine};
ghost use Rattle.ht_lines.specs.OneReading.{ReadsBack};
ghost use Rattle.ht_lines.specs.Written.{instr_text, module_text, spelled, spelled_text, text_line, written};

use crate::fields::next_number;
use crate::item::Item;
use hp_num::{NoMemory, hexadecimal_texts, put_bytes, put_hex, put_number_line};

/// Appends the line of an item and its line feed. On `NoMemory`, `out` holds what it held before.
///
/// The line is the one written form of what the item says in the file version: texts and names stand after their size
/// in version 3 and alone in every other, numbers in their shortest form, one blank between fields. The numbers of the
/// tail are written, and not how many the item says. The line of an item that `read_item` gave in this version is
/// read in it as an item with the same content, in a trace of the same form. It has no line feed but the one at its end
/// where the item's texts have none.
pub fn put_item(version: u8, item: &Item, out: &mut Vec<u8>) -> Result<(), NoMemory>
    ensures appended { OnOk result
        (out.new.items ≡ out.old.items ++ (written version (content item.now) ++ (10 ∷ []))) }
    ensures unchanged { OnErr result (out.new.items ≡ out.old.items) }
    ensures one_line { HasOneLineTexts (content item.now)
        → IsOneLine (written version (content item.now)) }
    ensures reads_back { ReadsBack version }
{
    hexadecimal_texts();
    let start = out.len();
    let done = put_line(version, item, out);
    if done.is_err() {
        out.truncate(start);
    }
    done
}

/// Appends the line of an item and its line feed. On `NoMemory`, a part of it may stand at the end of `out`.
fn put_line(version: u8, item: &Item, out: &mut Vec<u8>) -> Result<(), NoMemory>
    ensures appended { OnOk result
        (out.new.items ≡ out.old.items ++ (written version (content item.now) ++ (10 ∷ []))) }
    ensures kept { Extends out.old.items out.new.items }
{
    match *item {
        Item::Version { heaptrack, file } => {
            put_number_line(out, b'v', &[heaptrack, u64::from(file)])
        }
        Item::Executable { text } => put_text_line(out, b"x ", version, text),
        Item::Command { text } => put_text_line(out, b"X ", version, text),
        Item::Suppress { text } => put_text_line(out, b"S ", version, text),
        Item::System { page, pages } => put_number_line(out, b'I', &[page, pages]),
        Item::Str { text } => put_text_line(out, b"s ", version, text),
        Item::ModuleClear => put_whole_line(out, b"m -"),
        Item::Module {
            name,
            start,
            tail,
            ..
        } => put_module(out, version, name, start, tail),
        Item::Instr {
            ip,
            module,
            tail,
            ..
        } => put_instruction(out, ip, module, tail),
        Item::Node { ip, parent } => put_number_line(out, b't', &[ip, parent]),
        Item::Info { size, trace } => put_number_line(out, b'a', &[size, trace]),
        Item::Alloc { info } => put_number_line(out, b'+', &[info]),
        Item::Free { info } => put_number_line(out, b'-', &[info]),
        Item::RawAlloc { size, trace, ptr } => put_number_line(out, b'+', &[size, trace, ptr]),
        Item::RawFree { ptr } => put_number_line(out, b'-', &[ptr]),
        Item::Clock { ms } => put_number_line(out, b'c', &[ms]),
        Item::Rss { pages } => put_number_line(out, b'R', &[pages]),
        Item::Attached => put_whole_line(out, b"A"),
        Item::Comment { text } => put_comment(out, text),
        Item::Other { line } => put_whole_line(out, line),
    }
}

fn put_module(
    out: &mut Vec<u8>,
    version: u8,
    name: &[u8],
    start: u64,
    tail: &[u8],
) -> Result<(), NoMemory>
    ensures appended { OnOk result
        (out.new.items ≡ out.old.items ++ module_text version name.now start tail.now) }
    ensures kept { Extends out.old.items out.new.items }
{
    put_kind_text(out, b"m ", version, name)?;
    put_number(out, start)?;
    put_numbers(out, tail)?;
    put_feed(out)
}

fn put_instruction(
    out: &mut Vec<u8>,
    ip: u64,
    module_string: u64,
    tail: &[u8],
) -> Result<(), NoMemory>
    ensures appended { OnOk result
        (out.new.items ≡ out.old.items ++ instr_text ip module_string tail.now) }
    ensures kept { Extends out.old.items out.new.items }
{
    put_bytes(out, b"i")?;
    put_number(out, ip)?;
    put_number(out, module_string)?;
    put_numbers(out, tail)?;
    put_feed(out)
}

fn put_comment(out: &mut Vec<u8>, text: &[u8]) -> Result<(), NoMemory>
    ensures appended { OnOk result
        (out.new.items ≡ out.old.items ++ ((35 ∷ text.now) ++ (10 ∷ []))) }
    ensures kept { Extends out.old.items out.new.items }
{
    put_bytes(out, b"#")?;
    put_whole_line(out, text)
}

/// Appends a line of a kind and its blank, and a text.
fn put_text_line(out: &mut Vec<u8>, kind: &[u8], version: u8, text: &[u8]) -> Result<(), NoMemory>
    ensures appended { OnOk result
        (out.new.items ≡ out.old.items ++ text_line kind.now version text.now) }
    ensures kept { Extends out.old.items out.new.items }
{
    put_kind_text(out, kind, version, text)?;
    put_feed(out)
}

/// Appends a kind and its blank, and a text after it.
fn put_kind_text(out: &mut Vec<u8>, kind: &[u8], version: u8, text: &[u8]) -> Result<(), NoMemory>
    ensures appended { OnOk result
        (out.new.items ≡ out.old.items ++ (kind.now ++ spelled_text version text.now)) }
    ensures kept { Extends out.old.items out.new.items }
{
    put_bytes(out, kind)?;
    put_text(out, version, text)
}

/// Appends bytes and a line feed.
fn put_whole_line(out: &mut Vec<u8>, bytes: &[u8]) -> Result<(), NoMemory>
    ensures appended { OnOk result
        (out.new.items ≡ out.old.items ++ (bytes.now ++ (10 ∷ []))) }
    ensures kept { Extends out.old.items out.new.items }
{
    put_bytes(out, bytes)?;
    put_feed(out)
}

/// Appends a line feed.
fn put_feed(out: &mut Vec<u8>) -> Result<(), NoMemory>
    ensures appended { OnOk result (out.new.items ≡ out.old.items ++ (10 ∷ [])) }
    ensures kept { Extends out.old.items out.new.items }
{
    put_bytes(out, b"\n")
}

/// Appends the numbers of a tail, each after a blank.
fn put_numbers(out: &mut Vec<u8>, tail: &[u8]) -> Result<(), NoMemory>
    ensures appended { OnOk result (out.new.items ≡ out.old.items ++ spelled (numbers tail.now)) }
    ensures kept { Extends out.old.items out.new.items }
{
    let mut rest = tail;
    'numbers: while let Some((n, after)) = next_number(rest) {
        put_number(out, n)?;
        rest = after;
    }
    Ok(())
}

/// Appends a number after a blank.
fn put_number(out: &mut Vec<u8>, n: u64) -> Result<(), NoMemory>
    ensures appended { OnOk result (out.new.items ≡ out.old.items ++ spelled (n ∷ [])) }
    ensures kept { Extends out.old.items out.new.items }
{
    put_bytes(out, b" ")?;
    put_hex(out, n)
}

/// Appends a text or a name, in file version 3 after its size and a blank.
fn put_text(out: &mut Vec<u8>, version: u8, text: &[u8]) -> Result<(), NoMemory>
    ensures appended { OnOk result
        (out.new.items ≡ out.old.items ++ spelled_text version text.now) }
    ensures kept { Extends out.old.items out.new.items }
{
    if version != 3 {
        return put_bytes(out, text);
    }
    put_hex(out, text.len() as u64)?;
    put_bytes(out, b" ")?;
    put_bytes(out, text)
}
