//! Bytes set to the right of a column. How wide columns are is the business of the reports.
ghost use Rattle.std.specs.Prelude.{◌≡◌, ◌-◌, ◌+◌, ◌≤◌, ◌++◌, length, max, vec_len, vec_capacity, IsOk, OnOk, OnErr};
ghost use Rattle.hp_num.specs.Right.{right_aligned};

use crate::bytes::put_bytes;
use crate::memory::NoMemory;

/// Appends blanks up to `width` bytes and then `bytes` to `out`; bytes that are longer are appended whole. On
/// `NoMemory`, `out` holds what it held before.
///
/// The call can't fail where `out` has room for the text.
pub fn put_right(out: &mut Vec<u8>, bytes: &[u8], width: usize) -> Result<(), NoMemory>
    ensures appended { OnOk result
        (out.new.items ≡ out.old.items ++ right_aligned width bytes.now) }
    ensures unchanged { OnErr result (out.new.items ≡ out.old.items) }
    ensures capacity { vec_capacity out.old ≤ vec_capacity out.new }
    ensures room { vec_len out.old + max width (length bytes.now) ≤ vec_capacity out.old
        → IsOk result }

    // The text.
    ensures text_len { length (right_aligned width bytes.now) ≡ max width (length bytes.now) }
{
    out.reserve(width.max(bytes.len()))?;
    for _ in 0..width.saturating_sub(bytes.len()) {
        out.push(b' ')?;
    }
    put_bytes(out, bytes)
}
