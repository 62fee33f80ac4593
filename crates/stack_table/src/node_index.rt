//! The index of the nodes: their numbers by instruction pointer and parent. It is kept for those alone that look for
//! nodes; what the nodes are is no part of it.
ghost use Rattle.std.specs.Prelude.{◌≡◌, ℕ, ◌+◌, ◌-◌, ◌^◌, ◌<◌, ◌≤◌, length, Some, IfNone, IfSome, OnOk};
ghost use Rattle.stack_table.specs.Entries.{nodes_of};
ghost use Rattle.stack_table.specs.NodeIndexed.{IsIndexed, IsPassed, number_at};
ghost use Rattle.stack_table.specs.NodeNumber.{node_number};

use crate::node_entry::NodeEntry;
use hp_num::NoMemory;
use std::alloc::Global;
use std::collections::HashMap;

/// The numbers of the first `count` nodes, by instruction pointer and parent: of equal nodes the least.
///
/// Numbers of nodes that are held no more may stand in it too; they are passed over.
#[derive(Drop)]
pub struct NodeIndex {
    numbers: HashMap<(u64, u32), u32>,
    count: u32,
}

impl NodeIndex {
    /// The index of no nodes. It takes no memory.
    pub fn new(alloc: Global) -> Self
        ensures empty { result.count ≡ 0 }
    {
        NodeIndex {
            numbers: HashMap::new(alloc),
            count: 0,
        }
    }

    /// The least number of a node with this instruction pointer and parent. It takes no memory; the nodes that aren't in
    /// the index are walked.
    pub fn find(&self, entries: &[NodeEntry], ip: u64, parent: u32) -> Option<u32>
        requires indexed { IsIndexed (nodes_of entries.now) self.now }
        requires few { length entries.now ≤ 2 ^ 32 - 2 }
        ensures { result ≡ node_number (nodes_of entries.now) ip parent }
    {
        if let Some(number) = self.find_indexed(entries, ip, parent) {
            return Some(number);
        }
        find_after(entries, self.count, ip, parent)
    }

    /// Takes in the nodes that it doesn't have yet, as far as there is memory.
    pub fn fill(&mut self, entries: &[NodeEntry])
        requires indexed { IsIndexed (nodes_of entries.now) self.old }
        requires few { length entries.now ≤ 2 ^ 32 - 2 }
        ensures { IsIndexed (nodes_of entries.now) self.new }
    {
        while (self.count as usize) < entries.len() {
            if self.take_next(entries).is_err() {
                return;
            }
        }
    }

    /// Leaves out the nodes above `len`. It takes no memory.
    pub fn cut(&mut self, len: u32)
        ensures same { (ip parent : ℕ)
            → number_at self.new ip parent ≡ number_at self.old ip parent }
        ensures within { self.new.count ≤ len }
        ensures fewer { self.new.count ≤ self.old.count }
    {
        self.count = self.count.min(len);
    }

    fn take_next(&mut self, entries: &[NodeEntry]) -> Result<(), NoMemory>
        requires indexed { IsIndexed (nodes_of entries.now) self.old }
        requires more { self.old.count < length entries.now }
        requires few { length entries.now ≤ 2 ^ 32 - 2 }
        ensures indexed { IsIndexed (nodes_of entries.now) self.new }
        ensures next { OnOk result (self.new.count ≡ self.old.count + 1) }
    {
        let NodeEntry { ip, parent, .. } = entries[self.count as usize];
        let number = self.count + 1;
        match self.find_indexed(entries, ip, parent) {
            Some(_) => {}
            None => {
                self.numbers.insert((ip, parent), number)?;
            }
        }
        self.count = number;
        Ok(())
    }

    /// The same as `find` among the nodes that are in the index.
    fn find_indexed(&self, entries: &[NodeEntry], ip: u64, parent: u32) -> Option<u32>
        requires indexed { IsIndexed (nodes_of entries.now) self.now }
        ensures found { IfSome result
            (λ number. node_number (nodes_of entries.now) ip parent ≡ Some number) }
        ensures kept { IfSome result (λ number. number_at self.now ip parent ≡ Some number) }
        ensures passed { IfNone result (IsPassed (nodes_of entries.now) ip parent self.now.count) }
    {
        let number = *self.numbers.get(&(ip, parent))?;
        if number == 0 || number > self.count || !entries[number as usize - 1].is_call(ip, parent) {
            return None;
        }
        Some(number)
    }
}

/// The least number of a node with this instruction pointer and parent, where it isn't among the first `passed`.
fn find_after(entries: &[NodeEntry], passed: u32, ip: u64, parent: u32) -> Option<u32>
    requires passed { IsPassed (nodes_of entries.now) ip parent passed }
    requires within { passed ≤ length entries.now }
    requires few { length entries.now ≤ 2 ^ 32 - 2 }
    ensures { result ≡ node_number (nodes_of entries.now) ip parent }
{
    for place in passed as usize..entries.len() {
        if entries[place].is_call(ip, parent) {
            return Some(place as u32 + 1);
        }
    }
    None
}
