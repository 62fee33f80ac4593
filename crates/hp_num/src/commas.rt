//! Decimal texts with a comma before each full group of three digits.
//! Which numbers are written so is the business of the reports.
ghost use Rattle.std.specs.Prelude.{◌≡◌, ◌≢◌, ℕ, List, ◌+◌, ◌^◌, ◌<◌, ◌≤◌, ◌++◌, ◌⊎◌, length, take, vec_len, vec_capacity, decimal, All, IsOk, OnOk, OnErr};
ghost use Rattle.hp_num.specs.Commas.{with_commas, is_full_groups, decimal_with_commas};
ghost use Rattle.hp_num.specs.Digits.{IsDecimalDigit};

use crate::bytes::put_bytes;
use crate::memory::NoMemory;
use itoa::Buffer;

/// The bytes of the greatest number: 20 digits and 6 commas.
const MAX_TEXT: usize = 26;

/// Appends the decimal text of `n` with a comma before each full group of three digits that others stand before, as
/// `1,234,567`. On `NoMemory`, `out` holds what it held before.
///
/// The call can't fail where `out` has room for the text.
#[tactic(auto, using(crate::proofs::CommaTexts::comma_text_laws))]
pub fn put_commas(out: &mut Vec<u8>, n: u64) -> Result<(), NoMemory>
    ensures appended { OnOk result (out.new.items ≡ out.old.items ++ decimal_with_commas n) }
    ensures unchanged { OnErr result (out.new.items ≡ out.old.items) }
    ensures capacity { vec_capacity out.old ≤ vec_capacity out.new }
    ensures room { vec_len out.old + length (decimal_with_commas n) ≤ vec_capacity out.old
        → IsOk result }

    // The text.
    ensures not_empty { 0 < length (decimal_with_commas n) }
    ensures at_most_26 { length (decimal_with_commas n) ≤ 26 }
    ensures bytes { All (λ b. IsDecimalDigit b ⊎ b ≡ 44) (decimal_with_commas n) }
    ensures one_line { All (λ b. b ≢ 10) (decimal_with_commas n) }
{
    let mut digits = Buffer::new();
    let mut text = [0; MAX_TEXT];
    let end = write_with_commas(&mut text, digits.format(n).as_bytes());
    put_bytes(out, &text[..end])
}

/// Writes the digits with their commas at the front of `text`, and answers where they end.
fn write_with_commas(text: &mut [u8; MAX_TEXT], digits: &[u8]) -> usize
    requires { length (with_commas digits.now) ≤ 26 }
    ensures end { result ≤ 26 }
    ensures written { take result text.new ≡ with_commas digits.now }
{
    let mut end = 0;
    let mut left = digits.len();
    for digit in digits {
        left -= 1;
        text[end] = *digit;
        end += 1;
        if are_full_groups(left) {
            text[end] = b',';
            end += 1;
        }
    }
    end
}

/// Whether so many digits are full groups of three, one at least.
fn are_full_groups(count: usize) -> bool
    ensures { result ≡ is_full_groups count }
{
    count > 0 && count % 3 == 0
}

/// The laws of the texts with commas of all numbers of 64 bits. It does nothing: a caller whose contract speaks of
/// numbers that it does not write itself calls it for its clauses.
#[tactic(auto, using(crate::proofs::CommaTexts::comma_text_laws))]
pub fn comma_texts()
    ensures not_empty { (n : ℕ) → n < 2 ^ 64 → 0 < length (decimal_with_commas n) }
    ensures at_most_26 { (n : ℕ) → n < 2 ^ 64 → length (decimal_with_commas n) ≤ 26 }
    ensures bytes { (n : ℕ) → n < 2 ^ 64
        → All (λ b. IsDecimalDigit b ⊎ b ≡ 44) (decimal_with_commas n) }
    ensures one_line { (n : ℕ) → n < 2 ^ 64 → All (λ b. b ≢ 10) (decimal_with_commas n) }
{}
