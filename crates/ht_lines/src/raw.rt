//! The lines of a raw trace in the form in which nearly all of them are written, each read in one walk.
//!
//! It judges no line: what isn't of this form is left to `read_item`.
ghost use Rattle.std.specs.Prelude.{◌≡◌, ◌+◌, ◌<◌, ◌≤◌, drop, take, get_or, IfSome};
ghost use Rattle.std.specs.Str.Parse.{AllDigits, digits_value};
ghost use Rattle.ht_lines.specs.RawLine.{BeginsWithRaw, IsFieldAt};

use hp_num::hex_digit_value;

/// The bytes of the longest line of this form: the kind, a blank and 16 digits for each of three numbers, and the line feed.
const LONGEST: usize = 53;

/// The most digits of a number.
const MOST_DIGITS: usize = 16;

/// What a line of a raw trace says that is of this form.
#[derive(Clone, Copy)]
pub enum RawEvent {
    /// `+`: an allocation of so many bytes at a node, and its address.
    Allocation { size: u64, trace: u64, ptr: u64 },
    /// `-`: the block at an address is freed.
    Free { ptr: u64 },
    /// `t`: a node: the address of an instruction, and the parent node.
    Node { ip: u64, parent: u64 },
}

/// A line of a raw trace.
#[derive(Clone, Copy)]
pub struct RawLine {
    pub says: RawEvent,
    /// How many bytes the line has, with its line feed: 4 to 53.
    pub bytes: usize,
}

/// The line at the front of the bytes, where it stands there in its usual form: `+`, `-` or `t` with three numbers, one or
/// two, each of one to 16 hexadecimal digits behind one blank, and its line feed. In a raw trace `read_item` gives what it
/// says for the line in every file version. It takes no memory.
///
/// `None` promises nothing, and then `read_item` judges the line. It always comes where there are fewer than 53 bytes.
/// Each loop over such lines has the walk in its body.
#[inline(always)]
pub fn raw_line(bytes: &[u8]) -> Option<RawLine>
    ensures { IfSome result (λ found. BeginsWithRaw bytes.now found) }
{
    let front = bytes.first_chunk::<LONGEST>()?;
    match front[0] {
        b'+' => allocation_line(front),
        b'-' => free_line(front),
        b't' => node_line(front),
        _ => None,
    }
}

#[inline(always)]
fn allocation_line(front: &[u8; LONGEST]) -> Option<RawLine>
    requires { get_or front.now 0 0 ≡ 43 }
    ensures { IfSome result (BeginsWithRaw front.now) }
{
    let (size, end) = field_at(front, 1)?;
    let (trace, end) = field_at(front, end)?;
    let (ptr, end) = field_at(front, end)?;
    if front[end] != b'\n' {
        return None;
    }
    Some(RawLine {
        says: RawEvent::Allocation { size, trace, ptr },
        bytes: end + 1,
    })
}

#[inline(always)]
fn free_line(front: &[u8; LONGEST]) -> Option<RawLine>
    requires { get_or front.now 0 0 ≡ 45 }
    ensures { IfSome result (BeginsWithRaw front.now) }
{
    let (ptr, end) = field_at(front, 1)?;
    if front[end] != b'\n' {
        return None;
    }
    Some(RawLine {
        says: RawEvent::Free { ptr },
        bytes: end + 1,
    })
}

#[inline(always)]
fn node_line(front: &[u8; LONGEST]) -> Option<RawLine>
    requires { get_or front.now 0 0 ≡ 116 }
    ensures { IfSome result (BeginsWithRaw front.now) }
{
    let (ip, end) = field_at(front, 1)?;
    let (parent, end) = field_at(front, end)?;
    if front[end] != b'\n' {
        return None;
    }
    Some(RawLine {
        says: RawEvent::Node { ip, parent },
        bytes: end + 1,
    })
}

/// The number behind one blank at a place, and the place behind its digits.
#[inline(always)]
fn field_at(front: &[u8; LONGEST], start: usize) -> Option<(u64, usize)>
    requires { start ≤ 35 }
    ensures { IfSome result (λ found. IsFieldAt front.now start found.0 found.1) }
{
    if front[start] != b' ' {
        return None;
    }
    let (number, digits) = number_at(front, start + 1)?;
    Some((number, start + 1 + digits))
}

/// The number whose digits begin at a place, and how many digits it has, one to 16.
#[inline(always)]
fn number_at(front: &[u8; LONGEST], start: usize) -> Option<(u64, usize)>
    requires { start ≤ 36 }
    ensures some { IfSome result (λ found. 0 < found.1) }
    ensures most { IfSome result (λ found. found.1 ≤ 16) }
    ensures digits { IfSome result
        (λ found. AllDigits 16 (take found.1 (drop start front.now))) }
    ensures value { IfSome result
        (λ found. found.0 ≡ digits_value 16 (take found.1 (drop start front.now))) }
{
    let mut number = 0;
    for digits in 0..MOST_DIGITS {
        let Some(digit) = hex_digit_value(front[start + digits]) else {
            if digits == 0 {
                return None;
            }
            return Some((number, digits));
        };
        number = number * 16 + u64::from(digit);
    }
    Some((number, MOST_DIGITS))
}
