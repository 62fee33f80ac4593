//! Sums of numbers by lists of texts: a list is found by a hash of the numbers of its texts. Where lists and numbers come
//! from, and how sums are written, are no part of it.
ghost use Rattle.std.specs.Prelude.{◌≡◌, ◌+◌, [], All, OnOk};
ghost use Rattle.intern_tables.specs.Distinct.{AreDistinct};
ghost use Rattle.cost_tree.specs.Texts.{IsText};
ghost use Rattle.convert.specs.Numbers.{AddsItem, HasRoom, SumsUp, item_of};

use hp_num::NoMemory;
use indexmap::IndexSet;
use intern_tables::Names;
use std::alloc::Global;

/// Different lists in the order in which they first came, each with a sum.
#[derive(Drop)]
pub(crate) struct ListSums {
    pub(crate) names: Names,
    pub(crate) lists: IndexSet<Vec<usize>>,
    pub(crate) sums: Vec<u64>,
}

impl ListSums {
    /// No lists, of which each will be one of numbers of these names.
    pub(crate) fn new(alloc: Global, names: Names) -> ListSums
        requires distinct { AreDistinct names }
        ensures names { result.names ≡ names }
        ensures sums { SumsUp result [] }
    {
        ListSums {
            names,
            lists: IndexSet::new(alloc),
            sums: Vec::new(alloc),
        }
    }

    /// Adds a number to the sum of a list, given by the numbers of its texts. On `NoMemory` the sums are unfit for use.
    pub(crate) fn add(&mut self, list: &[usize], number: u64) -> Result<(), NoMemory>
        requires sums { HasRoom self.old number }
        requires held { All (IsText self.old.names) list.now }
        ensures names { self.new.names ≡ self.old.names }
        ensures added { OnOk result
            (AddsItem self.old self.new (item_of self.old.names list.now number)) }
    {
        if number == 0 {
            return Ok(());
        }
        let key = Vec::from_slice(*self.lists.allocator(), list)?;
        let (place, is_new) = self.lists.insert_full(key)?;
        if is_new {
            self.sums.push(number)?;
        } else {
            self.sums[place] += number;
        }
        Ok(())
    }
}
