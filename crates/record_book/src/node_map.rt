//! Which node of the trace has the stack of a node of the scripts. How the lines of nodes are written is no part of it.
ghost use Rattle.std.specs.Prelude.{◌≡◌, ◌≢◌, ℕ, ◌+◌, ◌<◌, ◌≤◌, length, IfOk};
ghost use Rattle.record_scripts.specs.ScriptNodes.{nodes_in};
ghost use Rattle.record_book.specs.MappedNodes.{HasBuffered, IsNewMap, number_at};

use hp_num::NoMemory;
use record_scripts::Scripts;
use std::alloc::Global;

/// The nodes of the trace by those of the scripts, as far as they are known: 0 stands for one that isn't known, and for that of
/// the empty stack. A stack whose node isn't known is put into a buffer.
#[derive(Drop)]
pub struct NodeMap {
    numbers: Vec<u32>,
    pub ips: Vec<u64>,
}

impl NodeMap {
    /// No node is known of these scripts.
    pub fn new(alloc: Global, job: &Scripts) -> Result<NodeMap, NoMemory>
        ensures mapped { IfOk result (IsNewMap (nodes_in job.now.scripts)) }
    {
        let numbers = vec![in alloc; 0; job.nodes() as usize + 1]?;
        Ok(NodeMap {
            numbers,
            ips: Vec::new(alloc),
        })
    }

    /// The node of the trace for a node of the scripts. Where it is 0, the stack is in the buffer.
    pub fn find(&mut self, job: &Scripts, node: u32) -> Result<u32, NoMemory>
        requires held { node ≤ length (nodes_in job.now.scripts) }
        requires there { node < length self.old.numbers.items }
        ensures number { IfOk result (λ number. number ≡ number_at self.old node) }
        ensures unknown { IfOk result (HasBuffered self.new (nodes_in job.now.scripts) node) }
        ensures same { self.new.numbers ≡ self.old.numbers }
    {
        let number = self.numbers[node as usize];
        if number == 0 {
            job.stack_into(node, &mut self.ips)?;
        }
        Ok(number)
    }

    /// Takes a node of the trace as that of a node of the scripts, whose stack it has unless it is 0.
    pub fn learn(&mut self, node: u32, number: u32)
        requires { node < length self.old.numbers.items }
        ensures other { (n : ℕ) → n ≢ node → number_at self.new n ≡ number_at self.old n }
        ensures here { number_at self.new node ≡ number }
        ensures count { length self.new.numbers.items ≡ length self.old.numbers.items }
    {
        self.numbers[node as usize] = number;
    }
}
