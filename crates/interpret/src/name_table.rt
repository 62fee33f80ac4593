//! The names that an interpretation calls for, by their numbers from 1.
ghost use Rattle.std.specs.Prelude.{◌≡◌, ◌≤◌, [], not, length, IfOk, IfErr, OnOk, OnErr};
ghost use Rattle.std.specs.List.{list_any};
ghost use Rattle.std.specs.Str.{bytes_eq};
ghost use Rattle.ht_trace.specs.LineFault.{Tells, most_entries};
ghost use Rattle.interpret.specs.FirstAppearances.{new_fault, with_new};
ghost use Rattle.interpret.specs.Resolved.{name_number};

use ht_trace::LineError;
use intern_tables::Names;
use std::alloc::Global;
use std::marker::Model;

/// The most names.
const MAX_NAMES: usize = u32::MAX as usize;

/// The names. Contracts see it as their list.
#[derive(Drop)]
pub struct NameTable {
    names: Names,
}

impl Model for NameTable {
    ghost use Rattle.std.specs.Prelude.{ℕ, ◌≤◌, List, length};
    ghost use Rattle.ht_trace.specs.LineFault.{most_entries};

    ghost Value = { List (List ℕ) };

    ghost view = { λ table. table.names };

    ghost invariant = { λ table. length table.names ≤ most_entries };
}

impl NameTable {
    /// No names. It takes no memory.
    pub fn new(alloc: Global) -> Self
        ensures empty { result ≡ [] }
    {
        NameTable {
            names: Names::new(alloc),
        }
    }

    /// Adds a name where it is new, and answers whether it is. `TooMany` comes exactly where it is new and 2^32 - 1 are
    /// held. One that is held takes no memory.
    pub fn add(&mut self, name: &[u8]) -> Result<bool, LineError>
        ensures added { OnOk result (self.new ≡ with_new bytes_eq self.old name.now) }
        ensures is_new { IfOk result
            (λ is_new. is_new ≡ not (list_any (bytes_eq name.now) self.old)) }
        ensures fault { IfErr result
            (λ error. Tells error (new_fault bytes_eq self.old name.now)) }
        ensures few { length self.new ≤ most_entries }
        ensures unchanged { OnErr result (self.new ≡ self.old) }
    {
        if self.names.find(name).is_some() {
            return Ok(false);
        }
        if self.names.len() == MAX_NAMES {
            return Err(LineError::TooMany);
        }
        self.names.intern(name)?;
        Ok(true)
    }

    /// The number of a name, and 0 for one that isn't held. It takes no memory.
    pub fn number(&self, name: &[u8]) -> u64
        ensures { result ≡ name_number self.now name.now }
    {
        self.names.find(name).unwrap_or(0) as u64
    }
}
