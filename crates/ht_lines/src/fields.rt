//! The fields of a line: the pieces between runs of blanks, from the front on.
//!
//! It knows no kind of line. Numbers are read straight from the bytes.
ghost use Rattle.std.specs.Prelude.{◌≡◌, ℕ, ◌+◌, ◌^◌, ◌<◌, ◌≤◌, [], ◌∷◌, length, IsTrue, IsSome, IfNone, IfSome, is_some, slice_get, nat_lt};
ghost use Rattle.std.specs.Option.{option_and_then, option_copied};
ghost use Rattle.std.specs.List.{position};
ghost use Rattle.hp_num.specs.ParsedHex.{parsed_hex};
ghost use Rattle.ht_lines.specs.Fields.{KeepsNumbers, after_blanks, after_field, all_numbers, before_blank, field_ends, fields, first_field, from_blank, is_blank, number, numbers};

use crate::text::field_ends;
use hp_num::{hex_digit_value, parse_hex};

/// The most digits of a number.
const MOST_DIGITS: usize = 16;

/// How many fields a text has, and whether each of them is a number.
#[derive(Clone, Copy)]
pub struct FieldCount {
    pub count: u32,
    pub all_numbers: bool,
}

/// The first field of a text, and what follows it.
pub fn next_field(text: &[u8]) -> Option<(&[u8], &[u8])>
    ensures none { IfNone result (fields text.now ≡ []) }
    ensures no_field { IfNone result (first_field text.now ≡ []) }
    ensures some { IfSome result (λ found. fields text.now ≡ found.0.now ∷ fields found.1.now) }
    ensures not_empty { IfSome result (λ found. 0 < length found.0.now) }
    ensures field { IfSome result (λ found. found.0.now ≡ first_field text.now) }
    ensures after { IfSome result (λ found. found.1.now ≡ after_field text.now) }
    ensures ends { IfSome result (λ found. IsTrue (field_ends found.1.now)) }
    ensures shorter { IfSome result (λ found. length found.1.now < length text.now) }
{
    let text = skip_blanks(text);
    if text.is_empty() {
        return None;
    }
    Some(split_at_blank(text))
}

/// Takes the number in the first field off a tail: that number, and what follows the field. `None` where there is no
/// field. A field that is no number, which the tail of an item never has, gives 0.
///
/// It gives the numbers of a tail one after another in one walk, where `field` seeks each from the front. It takes no
/// memory.
pub fn next_number(text: &[u8]) -> Option<(u64, &[u8])>
    ensures none { IfNone result (fields text.now ≡ []) }
    ensures no_number { IfNone result (numbers text.now ≡ []) }
    ensures some { IfSome result (λ found. numbers text.now ≡ found.0 ∷ numbers found.1.now) }
    ensures first { IfSome result (λ found. found.0 ≡ number (first_field text.now)) }
    ensures after { IfSome result (λ found. found.1.now ≡ after_field text.now) }
    ensures count { IfSome result
        (λ found. length (fields text.now) ≡ length (fields found.1.now) + 1) }
    ensures all { IfSome result (λ found. KeepsNumbers text.now found.1.now) }
    ensures shorter { IfSome result (λ found. length found.1.now < length text.now) }
{
    let (number, after) = next_hex(text)?;
    Some((number.unwrap_or(0), after))
}

/// The number that the first field of a text is, where it is one, and what follows the field. `None` where there is no field.
pub fn next_hex(text: &[u8]) -> Option<(Option<u64>, &[u8])>
    ensures none { IfNone result (fields text.now ≡ []) }
    ensures no_field { IfNone result (first_field text.now ≡ []) }
    ensures some { IfSome result
        (λ found. fields text.now ≡ first_field text.now ∷ fields found.1.now) }
    ensures number { IfSome result (λ found. found.0 ≡ parsed_hex (first_field text.now)) }
    ensures after { IfSome result (λ found. found.1.now ≡ after_field text.now) }
    ensures shorter { IfSome result (λ found. length found.1.now < length text.now) }
{
    let text = skip_blanks(text);
    if text.is_empty() {
        return None;
    }
    if let Some((number, after)) = leading_number(text) {
        return Some((Some(number), after));
    }
    let (field, after) = split_at_blank(text);
    Some((parse_hex(field), after))
}

/// The number whose digits a text begins with, and what follows them, which is nothing or begins with a blank: one walk over
/// the digits. `None` says nothing of the text.
#[inline(always)]
fn leading_number(text: &[u8]) -> Option<(u64, &[u8])>
    ensures number { IfSome result (λ found. parsed_hex (before_blank text.now) ≡ Some found.0) }
    ensures after { IfSome result (λ found. found.1.now ≡ from_blank text.now) }
{
    let mut number = 0;
    let mut digits = 0;
    'digits: while digits < MOST_DIGITS && digits < text.len() {
        let Some(digit) = hex_digit_value(text[digits]) else {
            break;
        };
        number = number * 16 + u64::from(digit);
        digits += 1;
    }
    let (_, after) = text.split_at(digits);
    if digits == 0 || !field_ends(after) {
        return None;
    }
    Some((number, after))
}

/// Counts the fields of a text, and tests whether each is a number.
pub fn count_fields(text: &[u8]) -> FieldCount
    requires { length text.now < 2 ^ 32 }
    ensures count { result.count ≡ length (fields text.now) }
    ensures all { result.all_numbers ≡ all_numbers (fields text.now) }
{
    let mut count = 0;
    let mut all_numbers = true;
    let mut rest = text;
    'fields: while let Some((number, after)) = next_hex(rest) {
        count += 1;
        all_numbers = all_numbers && number.is_some();
        rest = after;
    }
    FieldCount { count, all_numbers }
}

/// The number in the field of a tail at place `k`, from 0. `None` where there is no such field, or it is no number.
///
/// A tail is one of an item: the ranges of a module, or the frames of an instruction. It takes no memory.
pub fn field(tail: &[u8], k: u32) -> Option<u64>
    ensures exact { result ≡ option_and_then parsed_hex (slice_get (fields tail.now) k) }
    ensures number { IsTrue (all_numbers (fields tail.now))
        → result ≡ slice_get (numbers tail.now) k }
{
    match nth_field(tail, k) {
        Some(field) => parse_hex(field),
        None => None,
    }
}

/// The field of a text at place `k`, from 0.
fn nth_field(text: &[u8], k: u32) -> Option<&[u8]>
    ensures { option_copied result ≡ slice_get (fields text.now) k }
{
    let mut rest = text;
    for _ in 0..k {
        let (_, after) = next_field(rest)?;
        rest = after;
    }
    let (field, _) = next_field(rest)?;
    Some(field)
}

/// The text without the blanks that it begins with.
fn skip_blanks(text: &[u8]) -> &[u8]
    ensures rest { result.now ≡ after_blanks text.now }
    ensures shorter { length result.now ≤ length text.now }
{
    let mut rest = text;
    'blanks: while let [b' ', after @ ..] = rest {
        rest = after;
    }
    rest
}

/// The text up to its first blank, and the text from there on.
pub fn split_at_blank(text: &[u8]) -> (&[u8], &[u8])
    ensures before { result.0.now ≡ before_blank text.now }
    ensures from { result.1.now ≡ from_blank text.now }
    ensures ends { IsTrue (field_ends result.1.now) }
{
    let end = first_blank(text).unwrap_or(text.len());
    text.split_at(end)
}

fn first_blank(text: &[u8]) -> Option<usize>
    ensures place { result ≡ position is_blank text.now }
    ensures within { IfSome result (λ place. place < length text.now) }
{
    text.iter().position(|byte| *byte == b' ')
}
