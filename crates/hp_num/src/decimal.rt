//! Whole numbers in decimal digits. The numbers with a comma or a percent sign of the reports are no part of it.
ghost use Rattle.std.specs.Prelude.{◌≡◌, ℕ, List, ◌+◌, ◌^◌, ◌<◌, ◌≤◌, ◌++◌, ◌↔◌, length, vec_len, vec_capacity, decimal, All, Some, IsSome, IfSome, IsOk, OnOk, OnErr};
ghost use Rattle.std.specs.Str.Parse.{digits_value};
ghost use Rattle.hp_num.specs.DecText.{IsDecText, IsShortestDecText};
ghost use Rattle.hp_num.specs.Digits.{IsDecimalDigit};
ghost use Rattle.hp_num.specs.ParsedDec.{parsed_dec};

use crate::bytes::put_bytes;
use crate::memory::NoMemory;
use itoa::Buffer;

/// The digits of the greatest number.
const MAX_DIGITS: usize = 20;

/// The number that `text` writes: `Some` exactly for 1 to 20 decimal digits whose number is at most 2^64 - 1.
/// Leading zeros are taken, signs are not. It takes no memory.
pub fn parse_dec(text: &[u8]) -> Option<u64>
    ensures parsed { result ≡ parsed_dec text.now }
    ensures taken { IsSome result ↔ IsDecText text.now }
    ensures value { IfSome result (λ n. n ≡ digits_value 10 text.now) }
    ensures written { IfSome result (λ n. IsShortestDecText text.now → decimal n ≡ text.now) }
{
    if text.is_empty() || text.len() > MAX_DIGITS {
        return None;
    }
    let mut value: u64 = 0;
    for byte in text {
        let digit = char::from(*byte).to_digit(10)?;
        let shifted = value.checked_mul(10)?;
        value = shifted.checked_add(u64::from(digit))?;
    }
    Some(value)
}

/// Appends the shortest decimal text of `n` to `out`: 1 to 20 digits, with no leading zero but in `0`.
/// On `NoMemory`, `out` holds what it held before.
///
/// The call can't fail where `out` has room for the digits.
#[tactic(auto, using(crate::proofs::DecimalTexts::decimal_text_laws))]
pub fn put_dec(out: &mut Vec<u8>, n: u64) -> Result<(), NoMemory>
    ensures appended { OnOk result (out.new.items ≡ out.old.items ++ decimal n) }
    ensures unchanged { OnErr result (out.new.items ≡ out.old.items) }
    ensures capacity { vec_capacity out.old ≤ vec_capacity out.new }
    ensures room { vec_len out.old + length (decimal n) ≤ vec_capacity out.old → IsOk result }

    // The text.
    ensures not_empty { 0 < length (decimal n) }
    ensures at_most_20 { length (decimal n) ≤ 20 }
    ensures digits { All IsDecimalDigit (decimal n) }
    ensures reads_back { parsed_dec (decimal n) ≡ Some n }
    ensures shortest { (text : List ℕ) → parsed_dec text ≡ Some n
        → length (decimal n) ≤ length text }
{
    let mut buffer = Buffer::new();
    put_bytes(out, buffer.format(n).as_bytes())
}

/// The laws of the decimal texts of all numbers of 64 bits. It does nothing: a caller whose contract speaks of
/// numbers that it does not write itself calls it for its clauses.
#[tactic(auto, using(crate::proofs::DecimalTexts::decimal_text_laws))]
pub fn decimal_texts()
    ensures not_empty { (n : ℕ) → n < 2 ^ 64 → 0 < length (decimal n) }
    ensures at_most_20 { (n : ℕ) → n < 2 ^ 64 → length (decimal n) ≤ 20 }
    ensures digits { (n : ℕ) → n < 2 ^ 64 → All IsDecimalDigit (decimal n) }
    ensures reads_back { (n : ℕ) → n < 2 ^ 64 → parsed_dec (decimal n) ≡ Some n }
{}
