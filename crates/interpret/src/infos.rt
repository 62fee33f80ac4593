//! The pairs of a size and a node of a raw trace's allocations, each once, by their numbers from 0.
ghost use Rattle.std.specs.Prelude.{◌≡◌, ◌≤◌, [], true, false, not, length, IfNone, IfSome, IfOk, IfErr, OnOk, OnErr};
ghost use Rattle.std.specs.List.{list_any};
ghost use Rattle.ht_trace.specs.LineFault.{Tells, most_entries};
ghost use Rattle.interpret.specs.FirstAppearances.{new_fault, with_new};
ghost use Rattle.interpret.specs.RawTables.{info_number, same_info};

use ht_trace::LineError;
use indexmap::IndexSet;
use std::alloc::Global;
use std::marker::Model;

/// The most infos.
const MAX_INFOS: usize = u32::MAX as usize;

/// A size in bytes, and the number of the node that allocates blocks of it.
#[derive(Clone, Copy, PartialEq, Eq, Hash)]
pub struct AllocationInfo {
    pub size: u64,
    pub trace: u64,
}

/// The number of an info, and whether it is new.
#[derive(Clone, Copy)]
pub struct NumberedInfo {
    pub number: u32,
    pub is_new: bool,
}

/// The infos. Contracts see it as their list.
#[derive(Drop)]
pub struct InfoSet {
    infos: IndexSet<AllocationInfo>,
}

impl Model for InfoSet {
    ghost use Rattle.std.specs.Prelude.{◌≤◌, List, length};
    ghost use Rattle.ht_trace.specs.LineFault.{most_entries};
    ghost use Rattle.interpret.specs.declared.infos.AllocationInfo.{AllocationInfo};

    ghost Value = { List AllocationInfo };

    ghost view = { λ table. table.infos.keys };

    ghost invariant = { λ table. length table.infos.keys ≤ most_entries };
}

impl InfoSet {
    /// No infos. It takes no memory.
    pub fn new(alloc: Global) -> Self
        ensures empty { result ≡ [] }
    {
        InfoSet {
            infos: IndexSet::new(alloc),
        }
    }

    /// The number of an info that is held: `None` exactly where it isn't. It takes no memory.
    pub fn find(&self, info: AllocationInfo) -> Option<u32>
        ensures none { IfNone result (list_any (same_info info) self.now ≡ false) }
        ensures some { IfSome result (λ number. list_any (same_info info) self.now ≡ true) }
        ensures number { IfSome result (λ number. number ≡ info_number self.now info) }
    {
        let place = self.infos.get_index_of(&info)?;
        Some(place as u32)
    }

    /// The number of an info, which is added where it is new. `TooMany` comes exactly where it is new and 2^32 - 1 are
    /// held. One that is held takes no memory.
    pub fn intern(&mut self, info: AllocationInfo) -> Result<NumberedInfo, LineError>
        ensures added { OnOk result (self.new ≡ with_new same_info self.old info) }
        ensures number { IfOk result (λ found. found.number ≡ info_number self.new info) }
        ensures is_new { IfOk result
            (λ found. found.is_new ≡ not (list_any (same_info info) self.old)) }
        ensures fault { IfErr result (λ error. Tells error (new_fault same_info self.old info)) }
        ensures few { length self.new ≤ most_entries }
        ensures unchanged { OnErr result (self.new ≡ self.old) }
    {
        if self.infos.len() == MAX_INFOS && !self.infos.contains(&info) {
            return Err(LineError::TooMany);
        }
        let (place, is_new) = self.infos.insert_full(info)?;
        Ok(NumberedInfo {
            number: place as u32,
            is_new,
        })
    }
}
