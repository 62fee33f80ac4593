//! The list of nodes, and the walk from a node outwards.
ghost use Rattle.std.specs.Prelude.{◌≡◌, ◌≢◌, ℕ, ◌+◌, ◌-◌, ◌^◌, ◌<◌, ◌≤◌, ◌↔◌, [], ◌∷◌, ◌++◌, length, take, vec_len, vec_capacity, None, Some, IfErr, IfNone, IsSome, IfSome, IsOk, IfOk, OnOk, OnErr};
ghost use Rattle.stack_table.specs.Stack.{frame_count, most_frames, stack};
ghost use Rattle.stack_table.specs.AreNodes.{AreNodes};
ghost use Rattle.stack_table.specs.CanAdd.{CanAdd};
ghost use Rattle.stack_table.specs.Continues.{Continues};
ghost use Rattle.stack_table.specs.Entries.{IsTable, nodes_of};
ghost use Rattle.stack_table.specs.Interned.{node_interned_fault, stack_fault, stack_interned};
ghost use Rattle.stack_table.specs.NodeAnswers.{IsFull, IsInternedAs, IsNewFull, IsNewTooDeep, IsTooDeep, TellsFault, call_at, interned_as, node_of_call};
ghost use Rattle.stack_table.specs.NodeNumber.{node_number};

use crate::fault::NodeFault;
use crate::node_entry::NodeEntry;
use crate::node_index::NodeIndex;
use hp_num::NoMemory;
use std::alloc::Global;
use std::marker::Model;

/// The greatest number of frames of one stack.
pub const MOST_FRAMES: u32 = 4096;

/// The greatest number of nodes.
const MAX_NODES: u32 = u32::MAX - 1;

/// The nodes of a trace, numbered from 1 in the order in which they were added.
///
/// Stack `n` is node `n`, its parent, that one's parent, and so on outwards to a node with no parent; stack 0 is empty.
///
/// Contracts see it as the list of the nodes' instruction pointers, parents and frames. Each parent is below its
/// node's number, and 0 stands for no parent.
#[derive(Drop)]
pub struct Nodes {
    entries: Vec<NodeEntry>,
    index: NodeIndex,
}

impl Model for Nodes {
    ghost use Rattle.std.specs.Prelude.{List};
    ghost use Rattle.stack_table.specs.Node.{Node};
    ghost use Rattle.stack_table.specs.Entries.{IsTable, nodes_of};
    ghost use Rattle.stack_table.specs.NodeIndexed.{IsIndexed};

    ghost Value = { List Node };

    ghost view = { λ nodes. nodes_of nodes.entries.items };

    ghost invariant = { λ nodes.
        IsTable nodes.entries.items × IsIndexed (nodes_of nodes.entries.items) nodes.index };
}

impl Nodes {
    /// No nodes. It takes no memory; that of the nodes to come is taken from `alloc`.
    pub fn new(alloc: Global) -> Self
        ensures empty { result ≡ [] }
    {
        Nodes {
            entries: Vec::new(alloc),
            index: NodeIndex::new(alloc),
        }
    }

    /// Adds a node and answers its number, which is the new count.
    ///
    /// `ip` is the node's instruction pointer, and may be any number. `parent` is the number of the node that it is
    /// called from, or 0 where it has no parent. `frames` is how many frames it adds to its parent's stack, and may be 0.
    ///
    /// The faults, in the order in which they are looked for, so that the first that applies is the one that comes:
    ///
    /// - `UnknownParent` exactly where `parent` is above the count;
    /// - `TooDeep` exactly where the parent is known and the new stack would have more than 4,096 frames: those of the
    ///   parent's stack, which are none for parent 0, and `frames`;
    /// - `Full` exactly where neither applies and 2^32 - 2 nodes are held;
    /// - `NoMemory` only where none of these applies and memory is wanting.
    ///
    /// After a fault the nodes are as before. It takes the same time for any stack.
    pub fn add(&mut self, ip: u64, parent: u64, frames: u32) -> Result<u32, NodeFault>
        ensures added { OnOk result
            (self.new ≡ self.old ++ node_of_call ip parent frames ∷ []) }
        ensures number { IfOk result (λ number. number ≡ length self.old + 1) }
        ensures count { OnOk result (length self.new ≡ length self.old + 1) }
        ensures fits { OnOk result (CanAdd self.old parent frames) }

        // When each fault comes.
        ensures unknown_parent { (result ≡ Err NodeFault.UnknownParent)
            ↔ (length self.old < parent) }
        ensures too_deep { (result ≡ Err NodeFault.TooDeep)
            ↔ IsTooDeep self.old parent frames }
        ensures full { (result ≡ Err NodeFault.Full) ↔ IsFull self.old parent frames }
        ensures unchanged { OnErr result (self.new ≡ self.old) }

        // The stacks.
        ensures new_stack { OnOk result
            (stack self.new (length self.old + 1) ≡ ip ∷ stack self.old parent) }
        ensures new_frames { OnOk result
            (frame_count self.new (length self.old + 1) ≡ frame_count self.old parent + frames) }
        ensures continues { Continues self.old self.new }
        ensures stacks_stay { (n : ℕ) → n ≤ length self.old → stack self.new n ≡ stack self.old n }
        ensures frames_stay { (n : ℕ) → n ≤ length self.old
            → frame_count self.new n ≡ frame_count self.old n }
        ensures nodes { AreNodes self.new }
    {
        let count = self.len();
        if parent > u64::from(count) {
            return Err(NodeFault::UnknownParent);
        }
        let parent = parent as u32;
        let outer = self.frames_of(parent);
        if frames > MOST_FRAMES - outer {
            return Err(NodeFault::TooDeep);
        }
        if count == MAX_NODES {
            return Err(NodeFault::Full);
        }
        self.entries.push(NodeEntry {
            ip,
            parent,
            frames: frames as u16,
            depth: (outer + frames) as u16,
        })?;
        Ok(count + 1)
    }

    /// The least number of a node with this instruction pointer and parent, or that of a new one.
    ///
    /// `ip` and `parent` are as for `add`, and so is `frames`, which counts for a new node alone. A node that is held is
    /// answered as it is, in expected constant time, and takes no memory but for the index of nodes that `add` has added
    /// since the last look-up; it is never refused.
    ///
    /// The faults, in the order in which they are looked for:
    ///
    /// - `UnknownParent` exactly where `parent` is above the count;
    /// - `TooDeep` exactly where a new node is needed and its stack would have more than 4,096 frames;
    /// - `Full` exactly where a new node is needed, its stack has no more frames than that, and 2^32 - 2 nodes are held;
    /// - `NoMemory` only where a new node is needed, none of these applies, and memory is wanting.
    ///
    /// After a fault the nodes are as before.
    pub fn intern(&mut self, ip: u64, parent: u64, frames: u32) -> Result<u32, NodeFault>
        ensures interned { IfOk result
            (IsInternedAs self.old (node_of_call ip parent frames) self.new) }
        ensures held { IfSome (node_number self.old ip parent)
            (λ number. (result ≡ Ok number) × (self.new ≡ self.old)) }
        ensures added { IfNone (node_number self.old ip parent)
            (OnOk result (self.new ≡ self.old ++ node_of_call ip parent frames ∷ [])) }
        ensures number { IfOk result (λ number. node_number self.new ip parent ≡ Some number) }
        ensures stack { IfOk result (λ number. stack self.new number ≡ ip ∷ stack self.new parent) }
        ensures within { IfOk result (λ number. (parent < number) × (number ≤ length self.new)) }

        // When each fault comes.
        ensures unknown_parent { (result ≡ Err NodeFault.UnknownParent)
            ↔ (length self.old < parent) }
        ensures too_deep { (result ≡ Err NodeFault.TooDeep)
            ↔ IsNewTooDeep self.old ip parent frames }
        ensures full { (result ≡ Err NodeFault.Full) ↔ IsNewFull self.old ip parent frames }
        ensures fault { IfErr result
            (TellsFault (node_interned_fault self.old (node_of_call ip parent frames))) }
        ensures no_fault { OnOk result
            (node_interned_fault self.old (node_of_call ip parent frames) ≡ None) }
        ensures unchanged { OnErr result (self.new ≡ self.old) }

        // The nodes.
        ensures continues { Continues self.old self.new }
        ensures one_more { length self.new ≤ length self.old + 1 }
        ensures nodes { AreNodes self.new }
    {
        if parent > u64::from(self.len()) {
            return Err(NodeFault::UnknownParent);
        }
        self.index.fill(&self.entries);
        if let Some(number) = self.index.find(&self.entries, ip, parent as u32) {
            return Ok(number);
        }
        self.add(ip, parent, frames)
    }

    /// The number of the stack with these instruction pointers, from the innermost outwards; 0 for none.
    ///
    /// From the outermost on, each is interned as a node of one frame, called from the one before it.
    ///
    /// A fault is that of the outermost node that can't be had, and the nodes are then as before. `UnknownParent` never
    /// comes, and a stack whose nodes are all held is never refused.
    pub fn intern_stack(&mut self, ips: &[u64]) -> Result<u32, NodeFault>
        ensures interned { IfOk result
            (λ number. stack_interned self.old ips.now ≡ interned_as self.new number) }
        ensures stack { IfOk result (λ number. stack self.new number ≡ ips.now) }
        ensures within { IfOk result (λ number. number ≤ length self.new) }
        ensures fault { IfErr result
            (TellsFault (stack_fault self.old ips.now)) }
        ensures no_fault { OnOk result (stack_fault self.old ips.now ≡ None) }
        ensures parents_known { IfErr result (λ fault. fault ≢ NodeFault.UnknownParent) }
        ensures held { (stack_interned self.old ips.now).nodes ≡ self.old → IsOk result }
        ensures unchanged { OnErr result (self.new ≡ self.old) }

        // The nodes.
        ensures continues { Continues self.old self.new }
        ensures few_more { length self.new ≤ length self.old + length ips.now }
        ensures nodes { AreNodes self.new }
    {
        let len = self.len();
        let mut number = 0;
        for ip in ips.iter().rev() {
            match self.intern(*ip, u64::from(number), 1) {
                Ok(called) => number = called,
                Err(fault) => {
                    self.cut(len);
                    return Err(fault);
                }
            }
        }
        Ok(number)
    }

    /// Keeps the first `len` nodes, of which there are at least as many. It takes no memory.
    pub fn cut(&mut self, len: u32)
        requires { len ≤ length self.old }
        ensures nodes_left { self.new ≡ take len self.old }
        ensures count { length self.new ≡ len }
        ensures continued { Continues self.new self.old }
        ensures nodes { AreNodes self.new }
    {
        self.entries.truncate(len as usize);
        self.index.cut(len);
    }

    /// The frames of stack `n`, from its entry.
    fn frames_of(&self, n: u32) -> u32
        requires { n ≤ length self.now }
        ensures frames { result ≡ frame_count self.now n }
        ensures few { result ≤ most_frames }
    {
        if n == 0 {
            return 0;
        }
        u32::from(self.entries[n as usize - 1].depth)
    }

    /// The instruction pointer and the parent of node `n`, as they were added, where parent 0 stands for none.
    ///
    /// It is `None` exactly where no node has that number: for 0, and above `len`. It takes no memory.
    pub fn node(&self, n: u32) -> Option<(u64, u32)>
        ensures found { IsSome result ↔ ((1 ≤ n) × (n ≤ length self.now)) }
        ensures entry { result ≡ call_at self.now n }
        ensures lower_parent { IfSome result (λ found. found.1 < n) }
        ensures stack { IfSome result
            (λ found. stack self.now n ≡ found.0 ∷ stack self.now found.1) }
    {
        if n == 0 || n > self.len() {
            return None;
        }
        let entry = self.entries[n as usize - 1];
        Some((entry.ip, entry.parent))
    }

    /// Replaces what `out` holds by the instruction pointers of stack `n`, from that of node `n` outwards.
    ///
    /// `n` has to be at most `len`; for 0 `out` is left empty. `NoMemory` comes only where the capacity of `out` is below
    /// the length of the stack and memory is wanting; `out` then holds what it held before. The time is in the length of
    /// the stack alone.
    pub fn stack_into(&self, n: u32, out: &mut Vec<u64>) -> Result<(), NoMemory>
        requires { n ≤ length self.now }
        ensures ips { OnOk result (out.new.items ≡ stack self.now n) }
        ensures unchanged { OnErr result (out.new.items ≡ out.old.items) }
        ensures room { length (stack self.now n) ≤ vec_capacity out.old → IsOk result }
        ensures nodes { AreNodes self.now }
    {
        let len = stack_len(&self.entries, n);
        out.reserve(len.saturating_sub(out.len()))?;
        out.clear();
        push_stack(&self.entries, n, out)
    }

    /// How many nodes are held, which is the greatest number of a node: 2^32 - 2 at most. It takes no memory.
    pub fn len(&self) -> u32
        ensures count { result ≡ length self.now }
        ensures bound { result ≤ 2 ^ 32 - 2 }
        ensures nodes { AreNodes self.now }
    {
        self.entries.len() as u32
    }
}

/// How many instruction pointers stack `n` has.
fn stack_len(entries: &[NodeEntry], n: u32) -> usize
    requires table { IsTable entries.now }
    requires held { n ≤ length entries.now }
    ensures { result ≡ length (stack (nodes_of entries.now) n) }
{
    let mut len = 0;
    let mut at = n;
    'outwards: while at > 0 {
        len += 1;
        at = entries[at as usize - 1].parent;
    }
    len
}

/// Appends stack `n` to `out`, which has room for it.
fn push_stack(entries: &[NodeEntry], n: u32, out: &mut Vec<u64>) -> Result<(), NoMemory>
    requires table { IsTable entries.now }
    requires held { n ≤ length entries.now }
    requires room { vec_len out.old + length (stack (nodes_of entries.now) n)
        ≤ vec_capacity out.old }
    ensures succeeds { IsOk result }
    ensures ips { out.new.items ≡ out.old.items ++ stack (nodes_of entries.now) n }
{
    let mut at = n;
    'outwards: while at > 0 {
        let entry = entries[at as usize - 1];
        out.push(entry.ip)?;
        at = entry.parent;
    }
    Ok(())
}
