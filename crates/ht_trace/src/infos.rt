//! The infos of a trace, by their numbers from 0: a size, and the stack that allocates blocks of that size.
ghost use Rattle.std.specs.Prelude.{◌≡◌, ℕ, ◌+◌, ◌-◌, ◌^◌, ◌<◌, ◌≤◌, List, [], ◌∷◌, ◌++◌, length, None, Some, IfErr, IfNone, IfSome, OnOk, OnErr, slice_get};
ghost use Rattle.live_ledger.specs.LedgerState.{HeldInfo};
ghost use Rattle.ht_trace.specs.Entries.{held_info};
ghost use Rattle.ht_trace.specs.LineFault.{Tells, growth_fault, most_entries};

use crate::error::LineError;
use std::alloc::Global;
use std::marker::Model;

/// The most infos.
const MAX_INFOS: usize = u32::MAX as usize;

/// One info.
#[derive(Clone, Copy)]
pub struct InfoEntry {
    pub size: u64,
    pub stack: u32,
}

/// The infos. Contracts see it as the list of their stacks and sizes.
#[derive(Drop)]
pub struct InfoTable {
    entries: Vec<InfoEntry>,
}

impl Model for InfoTable {
    ghost use Rattle.std.specs.Prelude.{◌≤◌, ◌-◌, ◌^◌, List, length, map};
    ghost use Rattle.live_ledger.specs.LedgerState.{HeldInfo};
    ghost use Rattle.ht_trace.specs.Entries.{held_info};

    ghost Value = { List HeldInfo };

    ghost view = { λ table. map held_info table.entries.items };

    ghost invariant = { λ table. length table.entries.items ≤ 2 ^ 32 - 1 };
}

impl InfoTable {
    /// No infos. It takes no memory.
    pub fn new(alloc: Global) -> Self
        ensures empty { result ≡ [] }
    {
        InfoTable {
            entries: Vec::new(alloc),
        }
    }

    /// Adds an info. `TooMany` comes exactly where 2^32 - 1 are held.
    pub fn add(&mut self, size: u64, stack: u32) -> Result<(), LineError>
        ensures added { OnOk result
            (self.new ≡ self.old ++ record { stack = stack; size = size } ∷ []) }
        ensures no_fault { OnOk result (growth_fault (length self.old) most_entries ≡ None) }
        ensures fault { IfErr result
            (λ error. Tells error (growth_fault (length self.old) most_entries)) }
        ensures unchanged { OnErr result (self.new ≡ self.old) }
    {
        if self.entries.len() == MAX_INFOS {
            return Err(LineError::TooMany);
        }
        self.entries.push(InfoEntry { size, stack })?;
        Ok(())
    }

    /// The info of a number, where it is held.
    pub fn get(&self, n: u64) -> Option<InfoEntry>
        ensures none { IfNone result (slice_get self.now n ≡ None) }
        ensures some { IfSome result
            (λ entry. slice_get self.now n ≡ Some (held_info entry)) }
        ensures past { IfNone result (length self.now ≤ n) }
        ensures held { IfSome result (λ entry. n < length self.now) }
        ensures small { IfSome result (λ entry. n < 2 ^ 32 - 1) }
    {
        self.entries.get(n as usize).copied()
    }
}
