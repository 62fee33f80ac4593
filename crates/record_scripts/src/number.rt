//! The number in the first field of a text, in one walk where it stands there as nearly all of them are written.
ghost use Rattle.std.specs.Prelude.{◌≡◌, ◌+◌, ◌<◌, ◌≤◌, [], ◌∷◌, length, IfNone, IfSome};
ghost use Rattle.ht_lines.specs.Fields.{fields, numbers};
ghost use Rattle.record_scripts.specs.NumberAtFront.{BeginsWithDigits, BeginsWithNumber};

use hp_num::hex_digit_value;
use ht_lines::next_number;

/// The most digits of a number.
const MOST_DIGITS: usize = 16;

/// Takes the number in the first field off a text: that number, and what follows it. `None` where there is no field. A field
/// that is no number counts as 0.
/// Each field of a line has the walk in its place.
#[inline(always)]
pub fn first_number(text: &[u8]) -> Option<(u64, &[u8])>
    ensures none { IfNone result (fields text.now ≡ []) }
    ensures no_number { IfNone result (numbers text.now ≡ []) }
    ensures some { IfSome result (λ found. numbers text.now ≡ found.0 ∷ numbers found.1.now) }
    ensures count { IfSome result
        (λ found. length (fields text.now) ≡ length (fields found.1.now) + 1) }
    ensures shorter { IfSome result (λ found. length found.1.now < length text.now) }
{
    if text.is_empty() {
        return None;
    }
    match usual_number(text) {
        Some(found) => Some(found),
        None => next_number(text),
    }
}

/// The number behind one blank, where a blank or the end follows its digits, and what follows them. `None` promises nothing.
#[inline(always)]
fn usual_number(text: &[u8]) -> Option<(u64, &[u8])>
    ensures { IfSome result (λ found. BeginsWithNumber text.now found.0 found.1.now) }
{
    let [blank, rest @ ..] = text else {
        return None;
    };
    if *blank != b' ' {
        return None;
    }
    let (number, digits) = number_at_front(rest)?;
    let (_, after) = rest.split_at(digits);
    Some((number, after))
}

/// The number of the digits at the front, and how many these are, where a blank or the end follows them. `None` promises
/// nothing.
#[inline(always)]
fn number_at_front(text: &[u8]) -> Option<(u64, usize)>
    ensures { IfSome result (λ found. BeginsWithDigits text.now found.0 found.1) }
{
    let most = text.len().min(MOST_DIGITS);
    let mut number = 0;
    for digits in 0..most {
        let byte = text[digits];
        let Some(digit) = hex_digit_value(byte) else {
            if digits == 0 || byte != b' ' {
                return None;
            }
            return Some((number, digits));
        };
        number = number * 16 + u64::from(digit);
    }
    if most == 0 || most < text.len() {
        return None;
    }
    Some((number, most))
}
