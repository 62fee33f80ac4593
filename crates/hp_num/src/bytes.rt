//! Appending bytes to an output vector, the step under every call that appends a text.
//! Which bytes they are is decided by the callers.
ghost use Rattle.std.specs.Prelude.{◌≡◌, ◌+◌, ◌≤◌, ◌++◌, length, vec_len, vec_capacity, IsOk, OnOk, OnErr};

use crate::memory::NoMemory;

/// Appends `bytes` to `out`. On `NoMemory`, `out` holds what it held before.
///
/// The call can't fail where `out` has room for the bytes.
pub fn put_bytes(out: &mut Vec<u8>, bytes: &[u8]) -> Result<(), NoMemory>
    ensures appended { OnOk result (out.new.items ≡ out.old.items ++ bytes.now) }
    ensures unchanged { OnErr result (out.new.items ≡ out.old.items) }
    ensures capacity { vec_capacity out.old ≤ vec_capacity out.new }
    ensures room { vec_len out.old + length bytes.now ≤ vec_capacity out.old → IsOk result }
{
    out.extend_from_slice(bytes)?;
    Ok(())
}
