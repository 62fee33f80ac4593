//! What single lines of a Massif file say. Which line is awaited where is the reader's part.
ghost use Rattle.std.specs.Prelude.{◌≡◌, ◌<◌, ◌≤◌, ◌==◌, length, codes, IfSome};
ghost use Rattle.std.specs.Option.{option_copied, option_map};
ghost use Rattle.std.specs.List.{list_all, position};
ghost use Rattle.std.specs.Str.{bytes_eq};
ghost use Rattle.massif_file.specs.Blanks.{before_byte, from_byte, is_blank, is_comment, is_skipped, without_blanks};
ghost use Rattle.massif_file.specs.Fields.{header_value, key_number, mark_of, number_of, unit_of, value_after, mark_in, unit_in};
ghost use Rattle.massif_file.specs.TreeLine.{line_of};
ghost use Rattle.massif_file.specs.TreeLineOf.{tree_line_of};

use crate::fault::ProfileFault;
use crate::profile::{HeapTree, TimeUnit, TreeFields};
use hp_num::parse_dec;

/// The greatest number of a Massif file.
const MAX_NUMBER: u64 = 1 << 62;

/// Whether the line says nothing: it is empty, holds only blanks, or begins with `#`.
pub fn is_skipped(line: &[u8]) -> bool
    ensures { result ≡ is_skipped line.now }
{
    is_comment(line) || is_blank_line(line)
}

fn is_blank_line(line: &[u8]) -> bool
    ensures { result ≡ list_all is_blank line.now }
{
    line.iter().all(|byte| *byte == b' ')
}

fn is_comment(line: &[u8]) -> bool
    ensures { result ≡ is_comment line.now }
{
    match line {
        [] => false,
        [first, ..] => *first == b'#',
    }
}

/// What follows the key, where the line begins with it.
fn value_after<'a>(key: &[u8], line: &'a [u8]) -> Option<&'a [u8]>
    ensures { option_copied result ≡ value_after key.now line.now }
{
    line.strip_prefix(key)
}

/// What follows a key of the header, without leading blanks.
pub fn header_value<'a>(key: &[u8], line: &'a [u8]) -> Option<&'a [u8]>
    ensures { option_copied result ≡ header_value key.now line.now }
{
    let value = value_after(key, line)?;
    Some(without_blanks(value))
}

/// The number of at most 2^62 after the key: `BadSnapshot` where the key isn't there, `BadNumber` where no such
/// number follows it.
#[tactic(auto, unfolding(crate::specs::Fields::key_number))]
pub fn key_number(key: &[u8], line: &[u8]) -> Result<u64, ProfileFault>
    ensures { result ≡ key_number key.now line.now }
{
    match value_after(key, line) {
        None => Err(ProfileFault::BadSnapshot),
        Some(value) => number(value, MAX_NUMBER).ok_or(ProfileFault::BadNumber),
    }
}

#[tactic(auto, unfolding(crate::specs::Fields::unit_of))]
fn unit_of(name: &[u8]) -> Option<TimeUnit>
    ensures { result ≡ unit_of name.now }
{
    if is_text(name, b"i") {
        Some(TimeUnit::Instructions)
    } else if is_text(name, b"ms") {
        Some(TimeUnit::Milliseconds)
    } else if is_text(name, b"B") {
        Some(TimeUnit::Bytes)
    } else if is_text(name, b"e") {
        Some(TimeUnit::Events)
    } else {
        None
    }
}

#[tactic(auto, unfolding(crate::specs::Fields::mark_of))]
fn mark_of(name: &[u8]) -> Option<HeapTree>
    ensures { result ≡ mark_of name.now }
{
    if is_text(name, b"empty") {
        Some(HeapTree::Empty)
    } else if is_text(name, b"detailed") {
        Some(HeapTree::Detailed)
    } else if is_text(name, b"peak") {
        Some(HeapTree::Peak)
    } else {
        None
    }
}

/// The time unit that the line says.
pub fn unit_after(line: &[u8]) -> Option<TimeUnit>
    ensures { result ≡ unit_in (header_value (codes "time_unit:") line.now) }
{
    unit_of(header_value(b"time_unit:", line)?)
}

/// The mark that the line says.
pub fn mark_after(line: &[u8]) -> Option<HeapTree>
    ensures { result ≡ mark_in (value_after (codes "heap_tree=") line.now) }
{
    mark_of(value_after(b"heap_tree=", line)?)
}

/// What the line says, where it is a tree line. The label is still part of the line.
#[tactic(auto, unfolding(crate::specs::TreeLineOf::tree_line_of))]
pub fn tree_fields(line: &[u8]) -> Option<TreeFields<'_>>
    ensures { option_map line_of result ≡ tree_line_of line.now }
{
    let fields = value_after(b"n", without_blanks(line))?;
    let (children, rest) = number_before(fields, b':', u64::from(u32::MAX))?;
    let sized = value_after(b": ", rest)?;
    let (bytes, after) = number_before(sized, b' ', MAX_NUMBER)?;
    Some(TreeFields {
        children: children as u32,
        bytes,
        label: without_blanks(after),
    })
}

/// The number of at most `most` up to the first such byte, and the text from there on.
#[inline(always)]
fn number_before(text: &[u8], byte: u8, most: u64) -> Option<(u64, &[u8])>
    ensures number { option_map (λ found. found.0) result
        ≡ number_of most (before_byte byte text.now) }
    ensures from { IfSome result (λ found. found.1.now ≡ from_byte byte text.now) }
    ensures bound { IfSome result (λ found. found.0 ≤ most) }
{
    let (digits, from) = split_at_byte(text, byte);
    Some((number(digits, most)?, from))
}

/// The number of at most `most` that the text is in decimal digits.
#[tactic(auto, unfolding(crate::specs::Fields::number_of))]
fn number(text: &[u8], most: u64) -> Option<u64>
    ensures value { result ≡ number_of most text.now }
    ensures bound { IfSome result (λ n. n ≤ most) }
{
    let n = parse_dec(text)?;
    if n <= most { Some(n) } else { None }
}

fn is_text(value: &[u8], text: &[u8]) -> bool
    ensures { result ≡ bytes_eq value.now text.now }
{
    value == text
}

fn without_blanks(text: &[u8]) -> &[u8]
    ensures { result.now ≡ without_blanks text.now }
{
    let mut rest = text;
    'blanks: while let [b' ', after @ ..] = rest {
        rest = after;
    }
    rest
}

/// The text up to the first such byte, and the text from there on.
fn split_at_byte(text: &[u8], byte: u8) -> (&[u8], &[u8])
    ensures before { result.0.now ≡ before_byte byte text.now }
    ensures from { result.1.now ≡ from_byte byte text.now }
{
    let end = place_of(text, byte).unwrap_or(text.len());
    text.split_at(end)
}

/// The place of the first such byte.
fn place_of(text: &[u8], byte: u8) -> Option<usize>
    ensures place { result ≡ position (λ b. b == byte) text.now }
    ensures within { IfSome result (λ place. place < length text.now) }
{
    text.iter().position(|b| *b == byte)
}
