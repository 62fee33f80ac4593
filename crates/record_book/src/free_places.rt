//! The places that were handed out and have no live block, by class and address.
ghost use Rattle.std.specs.Prelude.{◌≡◌, ℕ, false, IfNone, IfSome, None, OnErr, OnOk, nat_eq};
ghost use Rattle.std.specs.HashMap.{get};
ghost use Rattle.record_book.specs.HeapState.{HasSamePlaces, PutsPlace, TakesFirst, has_place};

use crate::free_addresses::FreeAddresses;
use hp_num::NoMemory;
use std::alloc::Global;
use std::collections::HashMap;

/// Addresses of places without a live block, by class.
#[derive(Drop)]
pub struct FreePlaces {
    classes: HashMap<u64, FreeAddresses>,
    alloc: Global,
}

impl FreePlaces {
    /// No places. It takes no memory.
    pub fn new(alloc: Global) -> Self
        ensures { (class address : ℕ) → has_place result class address ≡ false }
    {
        FreePlaces {
            classes: HashMap::new(alloc),
            alloc,
        }
    }

    /// Puts in a place that isn't in. On `NoMemory` the places are as before.
    pub fn insert(&mut self, class: u64, address: u64) -> Result<(), NoMemory>
        requires { has_place self.old class address ≡ false }
        ensures put { OnOk result (PutsPlace self.old self.new class address) }
        ensures unchanged { OnErr result (HasSamePlaces self.old self.new) }
    {
        match self.classes.get_mut(&class) {
            Some(addresses) => addresses.insert(address),
            None => self.open(class, address),
        }
    }

    /// Takes out the place of a class with the least address.
    pub fn take_first(&mut self, class: u64) -> Option<u64>
        ensures taken { IfSome result (TakesFirst self.old self.new class) }
        ensures none { IfNone result ((a : ℕ) → has_place self.old class a ≡ false) }
        ensures unchanged { IfNone result (HasSamePlaces self.old self.new) }
    {
        match self.classes.get_mut(&class) {
            Some(addresses) => addresses.take_first(),
            None => None,
        }
    }

    /// Puts in the first place of a class. On `NoMemory` the places are as before.
    fn open(&mut self, class: u64, address: u64) -> Result<(), NoMemory>
        requires { get nat_eq self.old.classes class ≡ None }
        ensures put { OnOk result (PutsPlace self.old self.new class address) }
        ensures unchanged { OnErr result (HasSamePlaces self.old self.new) }
    {
        let mut addresses = FreeAddresses::new(self.alloc);
        addresses.insert(address)?;
        self.classes.insert(class, addresses)?;
        Ok(())
    }
}
