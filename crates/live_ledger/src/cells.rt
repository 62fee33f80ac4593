//! Cells: a list of numbers in which each change of a number is counted.
ghost use Rattle.std.specs.Prelude.{◌≡◌, ℕ, ◌+◌, ◌-◌, ◌^◌, ◌<◌, ◌≤◌, List, [], ◌∷◌, ◌++◌, length, OnOk, OnErr, slice_index, slice_set};

use crate::steps::Steps;
use hp_num::NoMemory;
use std::alloc::Global;
use std::marker::Model;
use std::sync::ledger::Ledger;

/// A list of numbers. Contracts see it as that list; `set` alone changes a number of it.
#[derive(Drop)]
pub struct Cells {
    values: Vec<u64>,
}

impl Model for Cells {
    ghost use Rattle.std.specs.Prelude.{◌^◌, ◌<◌, List, ℕ, length};

    ghost Value = { List ℕ };

    ghost view = { λ cells. cells.values.items };

    ghost invariant = { λ cells. length cells.values.items < 2 ^ 32 };
}

impl Cells {
    /// No cells. It takes no memory.
    pub fn new(alloc: Global) -> Cells
        ensures { result ≡ [] }
    {
        Cells {
            values: Vec::new(alloc),
        }
    }

    /// Adds a cell at the end, with this value. On `NoMemory` the cells are as before.
    pub fn push(&mut self, value: u64) -> Result<(), NoMemory>
        requires { length self.old < 2 ^ 32 - 1 }
        ensures pushed { OnOk result (self.new ≡ self.old ++ value ∷ []) }
        ensures unchanged { OnErr result (self.new ≡ self.old) }
    {
        self.values.push(value)?;
        Ok(())
    }

    /// How many cells there are.
    pub fn len(&self) -> u32
        ensures { result ≡ length self.now }
    {
        self.values.len() as u32
    }

    /// The value of cell `i`; cells are numbered from 0.
    pub fn at(&self, i: u32) -> u64
        requires { i < length self.now }
        ensures value { result ≡ slice_index self.now i }
        ensures within { result < 2 ^ 64 }
    {
        self.values[i as usize]
    }

    /// Gives cell `i` this value, and counts one step. It takes no memory.
    pub fn set<L: Ledger>(&mut self, i: u32, value: u64, steps: &mut Steps<L>)
        requires { i < length self.old }
        ensures cells { self.new ≡ slice_set self.old i value }
        ensures steps { steps.new ≡ steps.old + 1 }
    {
        self.values[i as usize] = value;
        steps.tick();
    }
}
