//! Numbers as values of options.
ghost use Rattle.std.specs.Prelude.{◌≡◌, ◌≤◌, option_map, IfSome};
ghost use Rattle.commands.specs.NumberWords.{number_if_given, number_or, number_within, percent_or};

use hp_num::{parse_dec, parse_percent};

/// The percentage where none is given, in hundredths.
const ONE_PERCENT: u64 = 100;

/// The number that decimal digits write, where it is within a range.
fn number_within(least: u64, most: u64, text: &str) -> Option<u64>
    ensures number { result ≡ number_within least most text.now }
    ensures least { IfSome result (λ number. least ≤ number) }
    ensures most { IfSome result (λ number. number ≤ most) }
{
    let number = parse_dec(text.as_bytes())?;
    if least <= number && number <= most {
        Some(number)
    } else {
        None
    }
}

/// The number of an option's value: a default, which is within the range, where the option isn't given.
#[tactic(auto, unfolding(crate::specs::NumberWords::number_or))]
pub fn number_or(default: u64, least: u64, most: u64, value: Option<&str>) -> Option<u64>
    requires least { least ≤ default }
    requires most { default ≤ most }
    ensures number { result
        ≡ number_or default least most (option_map (λ text. text.now) value.entry) }
    ensures least { IfSome result (λ number. least ≤ number) }
    ensures most { IfSome result (λ number. number ≤ most) }
{
    match value {
        Some(text) => number_within(least, most, text),
        None => Some(default),
    }
}

/// The number of an option's value, which has no default: `Some(None)` where the option isn't given.
#[tactic(auto, unfolding(crate::specs::NumberWords::number_if_given))]
pub fn number_if_given(least: u64, most: u64, value: Option<&str>) -> Option<Option<u64>>
    ensures number { result
        ≡ number_if_given least most (option_map (λ text. text.now) value.entry) }
    ensures most { IfSome result (λ given. IfSome given (λ number. number ≤ most)) }
{
    let Some(text) = value else {
        return Some(None);
    };
    let number = number_within(least, most, text)?;
    Some(Some(number))
}

/// The percentage of an option's value, in hundredths: 1 percent where the option isn't given.
#[tactic(auto, unfolding(crate::specs::NumberWords::percent_or))]
pub fn percent_or(value: Option<&str>) -> Option<u64>
    ensures percent { result ≡ percent_or (option_map (λ text. text.now) value.entry) }
    ensures most { IfSome result (λ percent. percent ≤ 10000) }
{
    match value {
        Some(text) => parse_percent(text.as_bytes()),
        None => Some(ONE_PERCENT),
    }
}
