//! The addresses of one class that have no live block. Which class it is, is no part of it.
ghost use Rattle.std.proofs.Props.{props};
ghost use Rattle.std.specs.Prelude.{◌≡◌, ℕ, false, IfNone, IfSome, OnErr, OnOk};
ghost use Rattle.std.specs.BinaryHeap.{IsHeap, heap_items};
ghost use Rattle.std.specs.List.{IsDistinct};
ghost use Rattle.record_book.specs.Addresses.{HasSame, PutsIn, TakesLeast, address_cmp, is_in, same_address};

use hp_num::NoMemory;
use std::alloc::Global;
use std::cmp::Reverse;
use std::collections::BinaryHeap;

/// Addresses, of which the least one is taken first. That no two are equal is a fact of the type.
#[derive(Drop)]
pub struct FreeAddresses {
    heap: BinaryHeap<Reverse<u64>>,
    ghost ordered: { IsHeap address_cmp (heap_items heap) } by { Prim.hlevel props },
    ghost distinct: { IsDistinct same_address (heap_items heap) } by { Prim.hlevel props },
}

impl FreeAddresses {
    /// No addresses. It takes no memory.
    pub fn new(alloc: Global) -> Self
        ensures { (a : ℕ) → is_in result.heap a ≡ false }
    {
        FreeAddresses {
            heap: BinaryHeap::new(alloc),
        }
    }

    /// Puts in an address that isn't in. On `NoMemory` the addresses are as before.
    pub fn insert(&mut self, address: u64) -> Result<(), NoMemory>
        requires { is_in self.old.heap address ≡ false }
        ensures put { OnOk result (PutsIn self.old.heap self.new.heap address) }
        ensures unchanged { OnErr result (HasSame self.old.heap self.new.heap) }
    {
        self.heap.push(Reverse(address))?;
        Ok(())
    }

    /// Takes out the least address.
    pub fn take_first(&mut self) -> Option<u64>
        ensures taken { IfSome result (TakesLeast (is_in self.old.heap) (is_in self.new.heap)) }
        ensures none { IfNone result ((a : ℕ) → is_in self.old.heap a ≡ false) }
        ensures unchanged { IfNone result (HasSame self.old.heap self.new.heap) }
    {
        match self.heap.pop() {
            Some(first) => Some(first.0),
            None => None,
        }
    }
}
