//! A line of numbers, as the traces of heaptrack have them. Which kind of line it is, is decided by the callers.
ghost use Rattle.std.specs.Prelude.{◌≡◌, ◌+◌, ◌≤◌, [], ◌∷◌, ◌++◌, length, vec_len, vec_capacity, IsOk, OnOk, OnErr};
ghost use Rattle.hp_num.specs.Extends.{Extends};
ghost use Rattle.hp_num.specs.Spelled.{spelled};

use crate::bytes::put_bytes;
use crate::hexadecimal::write_digits;
use crate::memory::NoMemory;

/// The bytes of the longest line of numbers: the kind, a blank and 16 digits for each of three numbers, and the line feed.
pub const LONGEST_NUMBER_LINE: usize = 53;

/// Appends a line of at most three numbers: the kind, each number in hexadecimal behind a blank, and the line feed. On
/// `NoMemory`, `out` holds what it held before.
///
/// The call can't fail where `out` has room for 53 bytes. The line is made in an array and appended once.
pub fn put_number_line(out: &mut Vec<u8>, kind: u8, numbers: &[u64]) -> Result<(), NoMemory>
    requires few { length numbers.now ≤ 3 }
    ensures appended { OnOk result
        (out.new.items ≡ out.old.items ++ (kind ∷ (spelled numbers.now ++ (10 ∷ [])))) }
    ensures unchanged { OnErr result (out.new.items ≡ out.old.items) }
    ensures kept { Extends out.old.items out.new.items }
    ensures capacity { vec_capacity out.old ≤ vec_capacity out.new }
    ensures room { vec_len out.old + 53 ≤ vec_capacity out.old → IsOk result }
{
    let mut buffer = [0; LONGEST_NUMBER_LINE];
    let mut start = LONGEST_NUMBER_LINE - 1;
    buffer[start] = b'\n';
    let mut left = numbers.len();
    'numbers: while left > 0 {
        left -= 1;
        start = write_digits(&mut buffer, start, numbers[left]) - 1;
        buffer[start] = b' ';
    }
    start -= 1;
    buffer[start] = kind;
    put_bytes(out, &buffer[start..])
}
