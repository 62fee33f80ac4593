//! The pointers that stand for blocks, with the number of the info of each.
ghost use Rattle.std.specs.Prelude.{◌≡◌, [], Some, None, OnOk, OnErr};
ghost use Rattle.interpret.specs.InterpreterState.{SetsPointer, info_at};

use hp_num::NoMemory;
use std::alloc::Global;
use std::collections::HashMap;
use std::marker::Model;

/// An info for each pointer that stands for a block. Contracts see it as their pairs.
#[derive(Drop)]
pub struct Pointers {
    infos: HashMap<u64, u32>,
}

impl Model for Pointers {
    ghost use Rattle.std.specs.Prelude.{ℕ, List};

    ghost Value = { List (ℕ × ℕ) };

    ghost view = { λ table. table.infos.entries };
}

impl Pointers {
    /// No pointers. It takes no memory.
    pub fn new(alloc: Global) -> Self
        ensures empty { result ≡ [] }
    {
        Pointers {
            infos: HashMap::new(alloc),
        }
    }

    /// Lets a pointer stand for a block of an info, whatever it stood for.
    pub fn set(&mut self, ptr: u64, info: u32) -> Result<(), NoMemory>
        ensures set { OnOk result (SetsPointer self.old self.new ptr (Some info)) }
        ensures unchanged { OnErr result (self.new ≡ self.old) }
    {
        self.infos.insert(ptr, info)?;
        Ok(())
    }

    /// The info of the block that a pointer stands for, which it then no longer does. It takes no memory.
    pub fn take(&mut self, ptr: u64) -> Option<u32>
        ensures info { result ≡ info_at self.old ptr }
        ensures taken { SetsPointer self.old self.new ptr None }
    {
        self.infos.remove(&ptr)
    }
}
