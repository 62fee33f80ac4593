//! The modules of a raw trace, and which of them holds an address. What stands in a module is no part of it.
ghost use Rattle.std.specs.Prelude.{◌≡◌, ◌<◌, [], ◌∷◌, ◌++◌, length, OnOk, IfNone, IfOk, IfSome};
ghost use Rattle.std.specs.Option.{option_map};
ghost use Rattle.ht_lines.specs.Fields.{numbers};
ghost use Rattle.ht_lines.specs.Reads.{RangesFit};
ghost use Rattle.interpret.specs.Holders.{PutsOver};
ghost use Rattle.interpret.specs.Modules.{in_ranges, module_of, module_said, ranges_in};
ghost use Rattle.interpret.specs.ModuleEntries.{module_kept};

use crate::address_index::AddressIndex;
use hp_num::{NoMemory, Text};
use ht_lines::next_number;
use std::alloc::Global;
use std::marker::Model;

/// Addresses from one on up to another, which is outside.
#[derive(Clone, Copy)]
pub struct AddressRange {
    pub begin: u64,
    pub end: u64,
}

/// A module as it is kept.
#[derive(Drop)]
pub struct ModuleEntry {
    pub name: Text,
    pub start: u64,
    pub ranges: Vec<AddressRange>,
}

/// The modules since the last line that cleared them, and beside them which of them counts at each address. Contracts see it
/// as their list.
#[derive(Drop)]
pub struct ModuleList {
    entries: Vec<ModuleEntry>,
    index: AddressIndex,
    alloc: Global,
}

impl Model for ModuleList {
    ghost use Rattle.std.specs.Prelude.{List, map};
    ghost use Rattle.interpret.specs.Modules.{LoadedModule};
    ghost use Rattle.interpret.specs.ModuleEntries.{AreHeld, module_kept};

    ghost Value = { List LoadedModule };

    ghost view = { λ modules. map module_kept modules.entries.items };

    ghost invariant = { λ modules. AreHeld modules.entries.items modules.index };
}

impl ModuleList {
    /// No modules. It takes no memory.
    pub fn new(alloc: Global) -> Self
        ensures empty { result ≡ [] }
    {
        ModuleList {
            entries: Vec::new(alloc),
            index: AddressIndex::new(alloc),
            alloc,
        }
    }

    /// Leaves no module. It takes no memory.
    pub fn clear(&mut self)
        ensures { self.new ≡ [] }
    {
        self.entries.clear();
        self.index.clear();
    }

    /// Adds a module, whose tail has an offset and a size for each range. After `NoMemory` all modules may be gone.
    pub fn add(&mut self, name: &[u8], start: u64, tail: &[u8]) -> Result<(), NoMemory>
        requires fit { RangesFit start (numbers tail.now) }
        ensures added { OnOk result
            (self.new ≡ self.old ++ module_said name.now start (numbers tail.now) ∷ []) }
    {
        let name = Text::new(self.alloc, name)?;
        let ranges = read_ranges(self.alloc, start, tail)?;
        self.entries.reserve(1)?;
        let place = self.entries.len();
        if let Err(fault) = put_ranges(&mut self.index, &ranges, place) {
            self.entries.clear();
            self.index.clear();
            return Err(fault);
        }
        self.entries.push(ModuleEntry {
            name,
            start,
            ranges,
        })?;
        Ok(())
    }

    /// The last module with a range that holds an address: `None` exactly where none has one. It takes no memory.
    pub fn last_holding(&self, ip: u64) -> Option<&ModuleEntry>
        ensures { option_map (λ entry. module_kept entry.now) result ≡ module_of self.now ip }
    {
        let place = self.index.holder(ip)?;
        self.entries.get(place)
    }
}

/// The ranges of a module line.
fn read_ranges(alloc: Global, start: u64, tail: &[u8]) -> Result<Vec<AddressRange>, NoMemory>
    requires fit { RangesFit start (numbers tail.now) }
    ensures { IfOk result (λ ranges. ranges.items ≡ ranges_in start tail.now) }
{
    let mut ranges = Vec::new(alloc);
    let mut rest = tail;
    'ranges: while let Some((range, after)) = next_range(start, rest) {
        ranges.push(range)?;
        rest = after;
    }
    Ok(ranges)
}

/// The range of the first two numbers of a tail, and what follows them.
fn next_range(start: u64, tail: &[u8]) -> Option<(AddressRange, &[u8])>
    requires fit { RangesFit start (numbers tail.now) }
    ensures none { IfNone result (ranges_in start tail.now ≡ []) }
    ensures some { IfSome result
        (λ pair. ranges_in start tail.now ≡ pair.0 ∷ ranges_in start pair.1.now) }
    ensures fit { IfSome result (λ found. RangesFit start (numbers found.1.now)) }
    ensures shorter { IfSome result (λ found. length found.1.now < length tail.now) }
{
    let (offset, after) = next_number(tail)?;
    let (size, after) = next_number(after)?;
    let begin = start + offset;
    let range = AddressRange {
        begin,
        end: begin + size,
    };
    Some((range, after))
}

/// Puts the module at a place over all others, in each of its ranges.
fn put_ranges(
    index: &mut AddressIndex,
    ranges: &[AddressRange],
    place: usize,
) -> Result<(), NoMemory>
    ensures { OnOk result (PutsOver index.old index.new (in_ranges ranges.now) place) }
{
    'each_range: for range in ranges {
        index.put(*range, place)?;
    }
    Ok(())
}
