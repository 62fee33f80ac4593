//! The table of names: bytes to numbers, by a hashed look-up, and numbers to bytes.
ghost use Rattle.std.specs.Prelude.{◌≡◌, ℕ, ◌+◌, ◌^◌, ◌<◌, ◌≤◌, ◌↔◌, List, [], ◌∷◌, ◌++◌, length, Some, Ok, Contains, IsSome, IfSome, IfNone, IfOk, OnOk, OnErr};
ghost use Rattle.intern_tables.specs.Numbers.{name_at, number_of};
ghost use Rattle.intern_tables.specs.Distinct.{AreDistinct};
ghost use Rattle.intern_tables.specs.Grown.{AreFirstOfMore, KeepsNames, KeepsNumbers, with_name};

use hp_num::NoMemory;
use indexmap::IndexSet;
use std::alloc::Global;
use std::marker::Model;

/// Distinct names, numbered from 1 in the order in which they first came.
///
/// Contracts see it as the list of the names.
#[derive(Drop)]
pub struct Names {
    names: IndexSet<Vec<u8>>,
}

impl Model for Names {
    ghost use Rattle.std.specs.Prelude.{ℕ, List};
    ghost use Rattle.intern_tables.specs.Keys.{names_of, AreNames};

    ghost Value = { List (List ℕ) };

    ghost view = { λ table. names_of table.names.keys };

    ghost invariant = { λ table. AreNames table.names.keys };
}

impl Names {
    /// No names. It takes no memory; that of the names to come is taken from `alloc`.
    pub fn new(alloc: Global) -> Self
        ensures empty { result ≡ [] }
    {
        Names {
            names: IndexSet::new(alloc),
        }
    }

    /// The number of the name `bytes`, which is added with the next number where it is new: the new count.
    ///
    /// A name may have any bytes, and none too. One that is present keeps its number and takes no memory, so it is never
    /// refused. A new one is copied; `NoMemory` comes only where memory for it is wanting, and the names are then as before.
    pub fn intern(&mut self, bytes: &[u8]) -> Result<usize, NoMemory>
        ensures present { IfSome (number_of self.old bytes.now)
            (λ n. (result ≡ Ok n) × (self.new ≡ self.old)) }
        ensures added { IfNone (number_of self.old bytes.now)
            (OnOk result (self.new ≡ with_name self.old bytes.now)) }
        ensures unchanged { OnErr result (self.new ≡ self.old) }

        // The number.
        ensures number { IfOk result (λ n. number_of self.new bytes.now ≡ Some n) }
        ensures name { IfOk result (λ n. name_at self.new n ≡ Some bytes.now) }
        ensures within { IfOk result (λ n. (1 ≤ n) × (n ≤ length self.new)) }

        // The names.
        ensures names_stay { KeepsNames self.old self.new }
        ensures numbers_stay { KeepsNumbers self.old self.new }
        ensures none_lost { length self.old ≤ length self.new }
        ensures one_more { length self.new ≤ length self.old + 1 }
        ensures distinct { AreDistinct self.new }
        ensures without_repeats { OnOk result
            (AreFirstOfMore self.old self.new bytes.now) }
    {
        if let Some(number) = self.find(bytes) {
            return Ok(number);
        }
        let name = Vec::from_slice(*self.names.allocator(), bytes)?;
        self.names.insert(name)?;
        Ok(self.names.len())
    }

    /// The number of the name `bytes`: `None` exactly where no name has the same bytes. It takes no memory.
    pub fn find(&self, bytes: &[u8]) -> Option<usize>
        ensures number { result ≡ number_of self.now bytes.now }
        ensures found { IsSome result ↔ Contains self.now bytes.now }
        ensures name { IfSome result (λ n. name_at self.now n ≡ Some bytes.now) }
        ensures within { IfSome result (λ n. (1 ≤ n) × (n ≤ length self.now)) }
        ensures distinct { AreDistinct self.now }
    {
        let place = self.names.get_index_of(bytes)?;
        Some(place + 1)
    }

    /// The bytes of the name with the number `n`.
    ///
    /// It is `None` exactly where no name has that number: for 0, and above `len`. It takes no memory.
    pub fn name(&self, n: usize) -> Option<&[u8]>
        ensures found { IsSome result ↔ ((1 ≤ n) × (n ≤ length self.now)) }
        ensures name { IfSome result (λ name. name_at self.now n ≡ Some name.now) }
    {
        let place = n.checked_sub(1)?;
        let name = self.names.get_index(place)?;
        Some(name.as_slice())
    }

    /// How many names there are, which is the greatest number of a name. It takes no memory.
    pub fn len(&self) -> usize
        ensures count { result ≡ length self.now }
        ensures small { result < 2 ^ 63 }
        ensures distinct { AreDistinct self.now }
    {
        self.names.len()
    }
}
