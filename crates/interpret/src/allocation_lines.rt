//! The allocations and frees of a raw trace, and the lines that each gives.
#![tactic(auto, using(hp_num::proofs::Laws::extends_same, hp_num::proofs::Laws::extends_more, hp_num::proofs::Laws::extends_trans))]

ghost use Rattle.std.specs.Prelude.{◌≡◌, [], ◌∷◌, None, Some, OnOk, OnErr};
ghost use Rattle.ht_lines.specs.Content.{allocation_line};
ghost use Rattle.hp_num.specs.Extends.{Extends};
ghost use Rattle.interpret.specs.AddsAllocation.{AddsAllocation};
ghost use Rattle.interpret.specs.AppendsLines.{AppendsInEach};
ghost use Rattle.interpret.specs.Interpreted.{free_said};
ghost use Rattle.interpret.specs.InterpreterState.{SetsPointer, info_at};

use crate::infos::{AllocationInfo, InfoSet};
use crate::pointers::Pointers;
use hp_num::{LONGEST_NUMBER_LINE, NoMemory, put_number_line};
use ht_lines::{Item, put_item};
use ht_trace::LineError;

/// Lets a pointer stand for a block of a held info, and appends the line of the allocation. On `NoMemory` both are as they
/// were.
pub fn put_held(
    pointers: &mut Pointers,
    info: u32,
    ptr: u64,
    out: &mut Vec<u8>,
) -> Result<(), NoMemory>
    ensures set { OnOk result (SetsPointer pointers.old pointers.new ptr (Some info)) }
    ensures lines { OnOk result (AppendsInEach (allocation_line info ∷ []) out.old out.new) }
    ensures unchanged { OnErr result (pointers.new ≡ pointers.old) }
    ensures unwritten { OnErr result (out.new.items ≡ out.old.items) }
{
    out.reserve(LONGEST_NUMBER_LINE)?;
    pointers.set(ptr, info)?;
    if put_number_line(out, b'+', &[u64::from(info)]).is_err() {
        unreachable!();
    }
    Ok(())
}

/// Appends the line of the free of a block that a pointer stands for, which it then no longer does; where it stands for none,
/// there is no line. On `NoMemory` both are as they were.
pub fn put_free(pointers: &mut Pointers, ptr: u64, out: &mut Vec<u8>) -> Result<(), NoMemory>
    ensures taken { OnOk result (SetsPointer pointers.old pointers.new ptr None) }
    ensures lines { OnOk result
        (AppendsInEach (free_said (info_at pointers.old ptr)) out.old out.new) }
    ensures unchanged { OnErr result (pointers.new ≡ pointers.old) }
    ensures unwritten { OnErr result (out.new.items ≡ out.old.items) }
    ensures kept { Extends out.old.items out.new.items }
{
    out.reserve(LONGEST_NUMBER_LINE)?;
    let Some(info) = pointers.take(ptr) else {
        return Ok(());
    };
    if put_number_line(out, b'-', &[u64::from(info)]).is_err() {
        unreachable!();
    }
    Ok(())
}

/// The number of an allocation's info, which is added where it is new. Appends the line of a new info and that of the
/// allocation.
///
/// `TooMany` comes exactly where there would be more infos than 2^32 - 1.
pub fn put_allocation(
    infos: &mut InfoSet,
    version: u8,
    info: AllocationInfo,
    out: &mut Vec<u8>,
) -> Result<u32, LineError>
    ensures adds { AddsAllocation version info infos.old infos.new out.old out.new result }
    ensures kept { Extends out.old.items out.new.items }
{
    let found = infos.intern(info)?;
    if found.is_new {
        let AllocationInfo { size, trace } = info;
        put_item(version, &Item::Info { size, trace }, out)?;
    }
    let info = u64::from(found.number);
    put_item(version, &Item::Alloc { info }, out)?;
    Ok(found.number)
}
