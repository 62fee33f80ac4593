//! Percentages in whole hundredths: shares, and their texts read and written.
//! That 0 of 0 is 0 percent, and that half a hundredth is rounded up, is this project's own rule.
ghost use Rattle.std.specs.Prelude.{◌≡◌, ◌≢◌, ℕ, List, [], ◌∷◌, None, Some, ◌+◌, ◌*◌, ◌<◌, ◌≤◌, ◌++◌, length, take, slice_index, vec_len, vec_capacity, All, IfSome, IsOk, OnOk, OnErr, if◌then◌else◌};
ghost use Rattle.hp_num.specs.Hundredths.{hundredths_of};
ghost use Rattle.hp_num.specs.ParsedPercent.{parsed_percent, is_fraction, fraction_value};
ghost use Rattle.hp_num.specs.Percent.{percent};

use crate::bytes::put_bytes;
use crate::decimal::parse_dec;
use crate::memory::NoMemory;

/// 100 percent in hundredths.
const WHOLE: u64 = 10_000;

/// The most digits before the point.
const MAX_WHOLE_DIGITS: usize = 3;

/// The hundredths of a percent that `text` writes: `Some` exactly for 1 to 3 decimal digits, with or without a point
/// and 1 or 2 digits after them, that say at most 100 percent. `1`, `1.0` and `1.00` all give 100. It takes no memory.
pub fn parse_percent(text: &[u8]) -> Option<u64>
    ensures parsed { result ≡ parsed_percent text.now }
    ensures at_most_whole { IfSome result (λ hundredths. hundredths ≤ 10000) }
{
    let point = point_place(text);
    if point > MAX_WHOLE_DIGITS {
        return None;
    }
    let whole = parse_dec(&text[..point])?;
    let fraction = parse_fraction(&text[point..])?;
    let hundredths = whole * 100 + fraction;
    if hundredths > WHOLE {
        return None;
    }
    Some(hundredths)
}

/// The place of the first point, or the length.
fn point_place(text: &[u8]) -> usize
    ensures before { All (λ b. b ≢ 46) (take result text.now) }
    ensures found { result < length text.now → slice_index text.now result ≡ 46 }
    ensures within { result ≤ length text.now }
{
    text.iter()
        .position(|byte| *byte == b'.')
        .unwrap_or(text.len())
}

/// The hundredths that a point and 1 or 2 digits write, or nothing.
fn parse_fraction(rest: &[u8]) -> Option<u64>
    ensures parsed { result
        ≡ (if is_fraction rest.now then Some (fraction_value rest.now) else None) }
    ensures small { IfSome result (λ hundredths. hundredths < 100) }
{
    match rest.len() {
        0 => Some(0),
        2 => Some(parse_dec(&rest[1..])? * 10),
        3 => parse_dec(&rest[1..]),
        _ => None,
    }
}

/// The hundredths of a percent that `part` is of `whole`, the nearest whole number and half up. Of nothing it is 0.
pub fn hundredths(part: u64, whole: u64) -> u64
    requires { part ≤ whole }
    ensures value { result ≡ hundredths_of part whole }
    ensures at_most_whole { result ≤ 10000 }
    ensures nearest { 0 < whole → (2 * whole * result ≤ 20000 * part + whole)
        × (20000 * part + whole < 2 * whole * (result + 1)) }
{
    if whole == 0 {
        return 0;
    }
    let whole = u128::from(whole);
    let nearest = (20_000 * u128::from(part) + whole) / (2 * whole);
    nearest as u64
}

/// Appends the text of at most 10,000 hundredths of a percent to `out`: the whole percents in at least two digits, a
/// point, two digits and `%`. On `NoMemory`, `out` holds what it held before.
///
/// The call can't fail where `out` has room for the text.
#[tactic(auto, using(crate::proofs::PercentTexts::percent_text_laws))]
pub fn put_percent(out: &mut Vec<u8>, hundredths: u64) -> Result<(), NoMemory>
    requires { hundredths ≤ 10000 }
    ensures appended { OnOk result (out.new.items ≡ out.old.items ++ percent hundredths) }
    ensures unchanged { OnErr result (out.new.items ≡ out.old.items) }
    ensures capacity { vec_capacity out.old ≤ vec_capacity out.new }
    ensures room { vec_len out.old + length (percent hundredths) ≤ vec_capacity out.old
        → IsOk result }

    // The text.
    ensures at_least_6 { 6 ≤ length (percent hundredths) }
    ensures at_most_7 { length (percent hundredths) ≤ 7 }
    ensures one_line { All (λ b. b ≢ 10) (percent hundredths) }
{
    if hundredths == WHOLE {
        return put_bytes(out, b"100.00%");
    }
    let digits = hundredths as u32;
    let text = [
        digit(digits / 1000 % 10),
        digit(digits / 100 % 10),
        b'.',
        digit(digits / 10 % 10),
        digit(digits % 10),
        b'%',
    ];
    put_bytes(out, &text)
}

/// The decimal digit of a number below 10.
fn digit(value: u32) -> u8
    requires { value < 10 }
    ensures { result ≡ 48 + value }
{
    b'0' + value as u8
}

/// The laws of the texts of all percentages. It does nothing: a caller whose contract speaks of percentages that it
/// does not write itself calls it for its clauses.
#[tactic(auto, using(crate::proofs::PercentTexts::percent_text_laws))]
pub fn percent_texts()
    ensures at_least_6 { (hundredths : ℕ) → hundredths ≤ 10000 → 6 ≤ length (percent hundredths) }
    ensures at_most_7 { (hundredths : ℕ) → hundredths ≤ 10000 → length (percent hundredths) ≤ 7 }
    ensures one_line { (hundredths : ℕ) → hundredths ≤ 10000
        → All (λ b. b ≢ 10) (percent hundredths) }
{}
