//! The shown form of a text from a document, which is safe within a line.
ghost use Rattle.std.specs.Prelude.{◌≡◌, ◌++◌, map, take, vec_len, OnOk, OnErr};
ghost use Rattle.dhat_json.specs.Shown.{shown, shown_byte};

use hp_num::{NoMemory, put_bytes};

/// Appends the shown form of `text`: each byte below 0x20, and a blank that is the first byte, is written `?`, and an
/// empty text is written `?`. On `NoMemory`, `out` holds what it held before.
///
/// What is appended is never empty, has no line feed and doesn't begin with a blank, as `shown_texts` says.
pub fn put_shown(text: &[u8], out: &mut Vec<u8>) -> Result<(), NoMemory>
    ensures appended { OnOk result (out.new.items ≡ out.old.items ++ shown text.now) }
    ensures unchanged { OnErr result (out.new.items ≡ out.old.items) }
{
    let before = out.len();
    let result = put_all(text, out);
    if result.is_err() {
        out.truncate(before);
    }
    result
}

fn put_all(text: &[u8], out: &mut Vec<u8>) -> Result<(), NoMemory>
    ensures kept { take (vec_len out.old) out.new.items ≡ out.old.items }
    ensures appended { OnOk result (out.new.items ≡ out.old.items ++ shown text.now) }
{
    let [first, rest @ ..] = text else {
        return put_bytes(out, b"?");
    };
    let first = if *first == b' ' {
        b'?'
    } else {
        shown_byte(*first)
    };
    out.push(first)?;
    put_rest(rest, out)
}

fn put_rest(text: &[u8], out: &mut Vec<u8>) -> Result<(), NoMemory>
    ensures kept { take (vec_len out.old) out.new.items ≡ out.old.items }
    ensures appended { OnOk result (out.new.items ≡ out.old.items ++ map shown_byte text.now) }
{
    for byte in text {
        out.push(shown_byte(*byte))?;
    }
    Ok(())
}

fn shown_byte(byte: u8) -> u8
    ensures { result ≡ shown_byte byte }
{
    if byte < b' ' { b'?' } else { byte }
}
