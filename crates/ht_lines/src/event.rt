//! The line of an event in the form in which nearly all of them are written, read in one walk.
//!
//! It judges no line: what isn't of this form is left to `read_item`.
ghost use Rattle.std.specs.Prelude.{◌≡◌, ◌<◌, drop, take, get_or, IfSome};
ghost use Rattle.std.specs.Str.Parse.{AllDigits, digits_value};
ghost use Rattle.ht_lines.specs.EventLine.{BeginsWithEvent, event_byte};

use hp_num::hex_digit_value;

/// The bytes of the longest line of this form: the kind, a blank, eight digits and the line feed.
const LONGEST: usize = 11;

/// Whether an event allocates or frees.
#[derive(Clone, Copy)]
pub enum EventKind {
    /// `+`: one allocation of the info.
    Allocation,
    /// `-`: one block of the info is freed.
    Free,
}

/// The line of an event of an interpreted trace.
#[derive(Clone, Copy)]
pub struct EventLine {
    pub kind: EventKind,
    /// The info, from 0.
    pub info: u64,
    /// How many bytes the line has, with its line feed: 4 to 11.
    pub bytes: usize,
}

/// The line of an event at the front of the bytes, where it stands there in its usual form: `+` or `-`, a blank, one to
/// eight hexadecimal digits, and its line feed. In an interpreted trace `read_item` gives that event for the line in
/// every file version. It takes no memory.
///
/// `None` promises nothing, and then `read_item` judges the line. It always comes where there are fewer than 11 bytes.
/// Each loop over such lines has the walk in its body.
#[inline(always)]
pub fn event_line(bytes: &[u8]) -> Option<EventLine>
    ensures { IfSome result (λ event. BeginsWithEvent bytes.now event) }
{
    let front = bytes.first_chunk::<LONGEST>()?;
    let kind = event_kind(front[0])?;
    if front[1] != b' ' {
        return None;
    }
    let (info, digits) = number_to_feed(front)?;
    Some(EventLine {
        kind,
        info,
        bytes: digits + 3,
    })
}

/// The kind of an event by the first byte of its line.
fn event_kind(byte: u8) -> Option<EventKind>
    ensures { IfSome result (λ kind. byte ≡ event_byte kind) }
{
    match byte {
        b'+' => Some(EventKind::Allocation),
        b'-' => Some(EventKind::Free),
        _ => None,
    }
}

/// The number after the first two bytes, and how many digits it has, one to eight, where a line feed follows them.
fn number_to_feed(front: &[u8; LONGEST]) -> Option<(u64, usize)>
    ensures some { IfSome result (λ found. 0 < found.1) }
    ensures most { IfSome result (λ found. found.1 < 9) }
    ensures digits { IfSome result (λ found. AllDigits 16 (take found.1 (drop 2 front.now))) }
    ensures value { IfSome result
        (λ found. found.0 ≡ digits_value 16 (take found.1 (drop 2 front.now))) }
    ensures feed { IfSome result (λ found. get_or (drop 2 front.now) found.1 0 ≡ 10) }
{
    let mut number = 0;
    for digits in 0..LONGEST - 2 {
        let byte = front[digits + 2];
        let Some(digit) = hex_digit_value(byte) else {
            if digits == 0 || byte != b'\n' {
                return None;
            }
            return Some((number, digits));
        };
        number = number * 16 + u64::from(digit);
    }
    None
}
