//! The texts and names of a line, which in file version 3 may stand after their size.
//!
//! It knows no kind of line: what it is given follows the kind.
ghost use Rattle.std.specs.Prelude.{◌≡◌, ℕ, ◌^◌, ◌<◌, ◌≤◌, drop, length, IsTrue, IfNone, IfSome, None, Some};
ghost use Rattle.std.specs.Option.{option_copied, option_map};
ghost use Rattle.ht_lines.specs.Fields.{field_ends};
ghost use Rattle.ht_lines.specs.SizedText.{sized_text, text_of};
ghost use Rattle.ht_lines.specs.ModuleName.{module_name, of_size_in, plain_name, sized_name};

use crate::fields::{next_field, split_at_blank};
use hp_num::parse_hex;

/// Whether nothing follows, or a blank.
pub fn field_ends(rest: &[u8]) -> bool
    ensures { result ≡ field_ends rest.now }
{
    match rest {
        [] => true,
        [byte, ..] => *byte == b' ',
    }
}

/// The text of a line. `rest` follows the kind, so it is empty or begins with a blank.
#[tactic(auto, unfolding(crate::specs::SizedText::text_of))]
pub fn text_of(version: u8, rest: &[u8]) -> &[u8]
    ensures { result.now ≡ text_of version (drop 1 rest.now) }
{
    let plain = match rest {
        [_, plain @ ..] => plain,
        [] => rest,
    };
    if version != 3 {
        return plain;
    }
    match sized_text(plain) {
        Some(text) => text,
        None => plain,
    }
}

/// The bytes after a number and one blank, where the number says how many they are.
fn sized_text(plain: &[u8]) -> Option<&[u8]>
    ensures { option_copied result ≡ sized_text plain.now }
{
    let (digits, after) = split_at_blank(plain);
    let size = parse_hex(digits)?;
    let [_, bytes @ ..] = after else {
        return None;
    };
    if bytes.len() as u64 != size {
        return None;
    }
    Some(bytes)
}

/// The name of a module, and the tail after it. `rest` follows the kind.
#[tactic(auto, unfolding(crate::specs::ModuleName::module_name, crate::specs::ModuleName::plain_name))]
pub fn module_name(version: u8, rest: &[u8]) -> Option<(&[u8], &[u8])>
    ensures exact { option_map (λ found. (found.0.now, found.1.now)) result
        ≡ module_name version rest.now }
    ensures shorter { IfSome result (λ found. length found.1.now ≤ length rest.now) }
{
    if version == 3 {
        if let Some(found) = sized_name(rest) {
            return Some(found);
        }
    }
    next_field(rest)
}

/// The bytes after a number and one blank, as many as the number says, and what follows them.
fn sized_name(rest: &[u8]) -> Option<(&[u8], &[u8])>
    ensures exact { option_map (λ found. (found.0.now, found.1.now)) result ≡ sized_name rest.now }
    ensures shorter { IfSome result (λ found. length found.1.now ≤ length rest.now) }
{
    let Some((digits, after)) = next_field(rest) else {
        return None;
    };
    match parse_hex(digits) {
        Some(size) => bytes_of_size(size, after),
        None => None,
    }
}

/// So many bytes after one blank, and what follows them, which is the end or begins with a blank.
fn bytes_of_size(size: u64, after: &[u8]) -> Option<(&[u8], &[u8])>
    ensures exact { option_map (λ found. (found.0.now, found.1.now)) result
        ≡ of_size_in (Some size) after.now }
    ensures shorter { IfSome result (λ found. length found.1.now ≤ length after.now) }
{
    let [_, bytes @ ..] = after else {
        return None;
    };
    if size > bytes.len() as u64 {
        return None;
    }
    let (name, tail) = bytes.split_at(size as usize);
    if field_ends(tail) {
        Some((name, tail))
    } else {
        None
    }
}
