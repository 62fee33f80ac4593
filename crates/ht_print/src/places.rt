//! Where the stacks of a trace allocate: the texts of their innermost frames, by numbers that all sections of a report share.
ghost use Rattle.std.specs.Prelude.{IfOk};
ghost use Rattle.ht_print.specs.Places.{TellPlaces};

use crate::place_table::PlaceTable;
use hp_num::NoMemory;
use ht_trace::Tables;
use std::alloc::Global;

/// For each stack the number of its place, which is below `count`: two stacks have the same number exactly where the texts
/// of their innermost frames are the same.
#[derive(Drop)]
pub(crate) struct Places {
    pub(crate) numbers: Vec<u32>,
    pub(crate) count: usize,
}

impl Places {
    /// The places of no stack, for a report that has no groups. It takes no memory.
    pub(crate) fn none(alloc: Global) -> Places {
        Places {
            numbers: Vec::new(alloc),
            count: 0,
        }
    }

    /// The places of the tables' stacks, or `NoMemory`.
    pub(crate) fn of(alloc: Global, tables: &Tables) -> Result<Places, NoMemory>
        ensures { IfOk result (λ places. TellPlaces tables.now places) }
    {
        let mut table = PlaceTable::new(alloc, tables)?;
        let mut numbers = Vec::with_capacity(alloc, tables.stacks() as usize)?;
        let mut text = Vec::new(alloc);
        let mut other = Vec::new(alloc);
        'each_stack: for stack in 0..tables.stacks() {
            numbers.push(table.number_of(tables, stack, &mut text, &mut other)?)?;
        }
        Ok(Places {
            numbers,
            count: table.stacks.len(),
        })
    }
}
