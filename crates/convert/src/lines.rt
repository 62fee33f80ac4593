//! Folded lines: a line for each list with its sum.
#![tactic(auto, using(hp_num::proofs::Laws::extends_same, hp_num::proofs::Laws::extends_more, hp_num::proofs::Laws::extends_trans))]

ghost use Rattle.std.specs.Prelude.{◌≡◌, ◌<◌, ◌++◌, All, List, OnOk, length};
ghost use Rattle.cost_tree.specs.Costed.{Costed};
ghost use Rattle.hp_num.specs.Extends.{Extends};
ghost use Rattle.convert.specs.Folded.{folded_byte, folded_name, folded_path};
ghost use Rattle.cost_tree.specs.Texts.{IsText, text_of, texts_of};
ghost use Rattle.convert.specs.Numbers.{GainsLineAt, GainsSums, SumsUp, later_texts, line_with};

use crate::list_sums::ListSums;
use hp_num::{NoMemory, put_bytes, put_dec};
use intern_tables::Names;

/// Appends the lines of all lists, in their order.
pub(crate) fn put_lines(sums: &ListSums, out: &mut Vec<u8>) -> Result<(), NoMemory>
    requires sums { (items : List Costed) × SumsUp sums.now items }
    ensures appended { OnOk result (GainsSums sums.now out.old.items out.new.items) }
    ensures kept { Extends out.old.items out.new.items }
{
    'each_list: for place in 0..sums.sums.len() {
        put_line_at(sums, place, out)?;
    }
    Ok(())
}

/// Appends the line of the list at this place.
fn put_line_at(sums: &ListSums, place: usize, out: &mut Vec<u8>) -> Result<(), NoMemory>
    requires held { All (λ key. All (IsText sums.now.names) key.items) sums.now.lists.keys }
    requires place { place < length sums.now.sums.items }
    ensures appended { OnOk result (GainsLineAt sums.now place out.old.items out.new.items) }
    ensures kept { Extends out.old.items out.new.items }
{
    let Some(list) = sums.lists.get_index(place) else {
        return Ok(());
    };
    put_line(&sums.names, list, sums.sums[place], out)
}

/// Appends the line of a list of numbers of names with its sum.
fn put_line(names: &Names, list: &[usize], sum: u64, out: &mut Vec<u8>) -> Result<(), NoMemory>
    requires held { All (IsText names.now) list.now }
    ensures appended { OnOk result
        (out.new.items ≡ out.old.items ++ line_with names.now list.now sum) }
    ensures kept { Extends out.old.items out.new.items }
{
    put_path(names, list, out)?;
    put_bytes(out, b" ")?;
    put_dec(out, sum)?;
    put_bytes(out, b"\n")
}

/// Appends the texts from the last to the first.
fn put_path(names: &Names, list: &[usize], out: &mut Vec<u8>) -> Result<(), NoMemory>
    requires held { All (IsText names.now) list.now }
    ensures appended { OnOk result
        (out.new.items ≡ out.old.items ++ folded_path (texts_of names.now list.now)) }
    ensures kept { Extends out.old.items out.new.items }
{
    let Some((last, before)) = list.split_last() else {
        return put_bytes(out, b"(no stack)");
    };
    put_name(names, *last, out)?;
    put_before(names, before, out)
}

/// Appends the texts from the last to the first, each behind a semicolon.
fn put_before(names: &Names, before: &[usize], out: &mut Vec<u8>) -> Result<(), NoMemory>
    requires held { All (IsText names.now) before.now }
    ensures appended { OnOk result
        (out.new.items ≡ out.old.items ++ later_texts names.now before.now) }
    ensures kept { Extends out.old.items out.new.items }
{
    'each_text: for place in (0..before.len()).rev() {
        put_bytes(out, b";")?;
        put_name(names, before[place], out)?;
    }
    Ok(())
}

/// Appends a text with a colon for each semicolon.
fn put_name(names: &Names, number: usize, out: &mut Vec<u8>) -> Result<(), NoMemory>
    requires held { IsText names.now number }
    ensures appended { OnOk result
        (out.new.items ≡ out.old.items ++ folded_name (text_of names.now number)) }
    ensures kept { Extends out.old.items out.new.items }
{
    let Some(text) = names.name(number) else {
        return Ok(());
    };
    put_text(text, out)
}

/// Appends the text, and then makes what was appended plain.
fn put_text(text: &[u8], out: &mut Vec<u8>) -> Result<(), NoMemory>
    ensures appended { OnOk result (out.new.items ≡ out.old.items ++ folded_name text.now) }
    ensures kept { Extends out.old.items out.new.items }
{
    let from = out.len();
    put_bytes(out, text)?;
    make_plain(&mut out[from..]);
    Ok(())
}

/// Writes a colon for each semicolon.
fn make_plain(text: &mut [u8])
    ensures { text.new ≡ folded_name text.old }
{
    'each_byte: for byte in text.iter_mut() {
        *byte = plain_byte(*byte);
    }
}

/// A colon for a semicolon, which stands between texts.
fn plain_byte(byte: u8) -> u8
    ensures { result ≡ folded_byte byte }
{
    if byte == b';' { b':' } else { byte }
}
