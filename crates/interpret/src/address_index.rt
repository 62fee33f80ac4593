//! Which module counts at an address, where of those that hold it the last one does. What a module is called is no part of it.
ghost use Rattle.std.specs.Prelude.{◌≡◌, ℕ, ◌<◌, ◌≤◌, None, IsSome, IfNone, IfSome, OnOk};
ghost use Rattle.interpret.specs.Holders.{PutsOver, RemovesWithin, change_at, holder_at};
ghost use Rattle.interpret.specs.Modules.{in_range};

use crate::modules::AddressRange;
use hp_num::NoMemory;
use std::alloc::Global;
use std::collections::BTreeMap;

/// The addresses from which on another module counts, up to the next of them: each with the place of that module, or `None`
/// where no module holds what follows.
#[derive(Drop)]
pub struct AddressIndex {
    changes: BTreeMap<u64, Option<usize>>,
}

impl AddressIndex {
    /// The index of no modules. It takes no memory.
    pub fn new(alloc: Global) -> Self
        ensures { (ip : ℕ) → holder_at result ip ≡ None }
    {
        AddressIndex {
            changes: BTreeMap::new(alloc),
        }
    }

    /// Leaves no module. It takes no memory.
    pub fn clear(&mut self)
        ensures { (ip : ℕ) → holder_at self.new ip ≡ None }
    {
        self.changes.clear();
    }

    /// The place of the module that counts at an address: `None` exactly where none holds it. It takes no memory.
    pub fn holder(&self, ip: u64) -> Option<usize>
        ensures { result ≡ holder_at self.now ip }
    {
        let (_, place) = self.changes.range(..=ip).next_back()?;
        *place
    }

    /// Puts the module at a place over all others in a range. After `NoMemory` other addresses may have changed too.
    pub fn put(&mut self, range: AddressRange, place: usize) -> Result<(), NoMemory>
        ensures { OnOk result (PutsOver self.old self.new (λ ip. in_range ip range) place) }
    {
        let AddressRange { begin, end } = range;
        if begin >= end {
            return Ok(());
        }
        let behind = self.holder(end);
        self.remove_within(begin, end);
        self.changes.insert(end, behind)?;
        self.changes.insert(begin, Some(place))?;
        Ok(())
    }

    /// Removes the changes from an address on up to another.
    fn remove_within(&mut self, begin: u64, end: u64)
        requires some { begin < end }
        ensures { RemovesWithin self.old self.new begin end }
    {
        'changes: while let Some(from) = self.first_within(begin, end) {
            self.changes.remove(&from);
        }
    }

    /// The first change from an address on up to another.
    fn first_within(&self, begin: u64, end: u64) -> Option<u64>
        requires some { begin < end }
        ensures low { IfSome result (λ from. begin ≤ from) }
        ensures high { IfSome result (λ from. from < end) }
        ensures some { IfSome result (λ from. IsSome (change_at self.now from)) }
        ensures none { IfNone result
            ((from : ℕ) → begin ≤ from → from < end → change_at self.now from ≡ None) }
    {
        let (from, _) = self.changes.range(begin..end).next()?;
        Some(*from)
    }
}
