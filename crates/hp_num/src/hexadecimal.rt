//! Whole numbers in hexadecimal digits, without `0x`: the numbers of heaptrack's trace file.
ghost use Rattle.std.specs.Prelude.{◌≡◌, ℕ, List, false, ◌+◌, ◌^◌, ◌<◌, ◌≤◌, ◌++◌, ◌↔◌, length, drop, vec_len, vec_capacity, All, Some, IsSome, IfSome, IsOk, OnOk, OnErr};
ghost use Rattle.std.specs.Str.Parse.{digits_value};
ghost use Rattle.std.specs.Fmt.{digit_glyph};
ghost use Rattle.hp_num.specs.Digits.{IsLowerHexDigit};
ghost use Rattle.hp_num.specs.HexText.{IsHexText, IsShortestHexText};
ghost use Rattle.hp_num.specs.Hexadecimal.{hexadecimal};
ghost use Rattle.hp_num.specs.ParsedHex.{parsed_hex};

use crate::bytes::put_bytes;
use crate::hex_digit::hex_digit_value;
use crate::memory::NoMemory;

/// The digits of the greatest number.
const MAX_DIGITS: usize = 16;

/// The number that `text` writes: `Some` exactly for 1 to 16 hexadecimal digits of either case. It takes no memory.
pub fn parse_hex(text: &[u8]) -> Option<u64>
    ensures parsed { result ≡ parsed_hex text.now }
    ensures taken { IsSome result ↔ IsHexText text.now }
    ensures value { IfSome result (λ n. n ≡ digits_value 16 text.now) }
    ensures written { IfSome result (λ n. IsShortestHexText text.now → hexadecimal n ≡ text.now) }
{
    if text.is_empty() || text.len() > MAX_DIGITS {
        return None;
    }
    let mut value = 0;
    for byte in text {
        let digit = hex_digit_value(*byte)?;
        value = value * 16 + u64::from(digit);
    }
    Some(value)
}

/// Appends the shortest hexadecimal text of `n` to `out`: 1 to 16 digits in lower case, with no leading zero but
/// in `0`, and without `0x`. On `NoMemory`, `out` holds what it held before.
///
/// The call can't fail where `out` has room for the digits.
#[tactic(auto, using(crate::proofs::HexTexts::hex_text_laws))]
pub fn put_hex(out: &mut Vec<u8>, n: u64) -> Result<(), NoMemory>
    ensures appended { OnOk result (out.new.items ≡ out.old.items ++ hexadecimal n) }
    ensures unchanged { OnErr result (out.new.items ≡ out.old.items) }
    ensures capacity { vec_capacity out.old ≤ vec_capacity out.new }
    ensures room { vec_len out.old + length (hexadecimal n) ≤ vec_capacity out.old → IsOk result }

    // The text.
    ensures not_empty { 0 < length (hexadecimal n) }
    ensures at_most_16 { length (hexadecimal n) ≤ 16 }
    ensures digits { All IsLowerHexDigit (hexadecimal n) }
    ensures reads_back { parsed_hex (hexadecimal n) ≡ Some n }
    ensures shortest { (text : List ℕ) → parsed_hex text ≡ Some n
        → length (hexadecimal n) ≤ length text }
{
    let mut buffer = [0; MAX_DIGITS];
    let start = write_digits(&mut buffer, MAX_DIGITS, n);
    put_bytes(out, &buffer[start..])
}

/// Writes the digits of `n` before a place of `buffer`, and answers where they start.
#[inline(always)]
pub(crate) fn write_digits(buffer: &mut [u8], end: usize, n: u64) -> usize
    requires held { end ≤ length buffer.old }
    requires room { 16 ≤ end }
    ensures start { result < end }
    ensures most { end ≤ result + 16 }
    ensures len { length buffer.new ≡ length buffer.old }
    ensures written { drop result buffer.new ≡ hexadecimal n ++ drop end buffer.old }
{
    let mut start = end;
    let mut rest = n;
    'digits: loop {
        start -= 1;
        buffer[start] = lower_case_digit((rest % 16) as u8);
        rest /= 16;
        if rest == 0 {
            return start;
        }
    }
}

fn lower_case_digit(value: u8) -> u8
    requires { value < 16 }
    ensures { result ≡ digit_glyph false value }
{
    if value < 10 {
        b'0' + value
    } else {
        b'a' + (value - 10)
    }
}

/// The laws of the hexadecimal texts of all numbers of 64 bits. It does nothing: a caller whose contract speaks of
/// numbers that it does not write itself calls it for its clauses.
#[tactic(auto, using(crate::proofs::HexTexts::hex_text_laws))]
pub fn hexadecimal_texts()
    ensures not_empty { (n : ℕ) → n < 2 ^ 64 → 0 < length (hexadecimal n) }
    ensures at_most_16 { (n : ℕ) → n < 2 ^ 64 → length (hexadecimal n) ≤ 16 }
    ensures digits { (n : ℕ) → n < 2 ^ 64 → All IsLowerHexDigit (hexadecimal n) }
    ensures reads_back { (n : ℕ) → n < 2 ^ 64 → parsed_hex (hexadecimal n) ≡ Some n }
{}
