//! The nodes of the stacks of scripts, each of which is one frame, and the stacks that were read lately.
ghost use Rattle.std.specs.Prelude.{◌≡◌, ◌+◌, ◌-◌, ◌^◌, ◌≤◌, ◌↔◌, [], length, reverse, IsTrue, IfErr, IfOk, OnOk};
ghost use Rattle.stack_table.specs.AreNodes.{AreNodes};
ghost use Rattle.ht_lines.specs.Fields.{numbers};
ghost use Rattle.ht_lines.specs.Written.{AreWords};
ghost use Rattle.record_scripts.specs.KnownText.{IsRead};
ghost use Rattle.record_scripts.specs.ScriptFaults.{RefusesIps};
ghost use Rattle.record_scripts.specs.ScriptTurns.{AreSingle, InternsStack};

use crate::fault::ScriptFault;
use crate::known_stacks::KnownStacks;
use crate::script_line::read_ips;
use hp_num::NoMemory;
use stack_table::{NodeFault, Nodes};
use std::alloc::Global;
use std::marker::Model;

/// The nodes of stacks. Contracts see it as the list of them.
#[derive(Drop)]
pub struct Stacks {
    nodes: Nodes,
    known: KnownStacks,
}

impl Model for Stacks {
    ghost use Rattle.std.specs.Prelude.{List};
    ghost use Rattle.stack_table.specs.Node.{Node};
    ghost use Rattle.record_scripts.specs.KnownText.{AreKnown};

    ghost Value = { List Node };

    ghost view = { λ stacks. stacks.nodes };

    ghost invariant = { λ stacks. AreKnown stacks.nodes stacks.known };
}

impl Stacks {
    /// No nodes. It takes no memory.
    pub fn new(alloc: Global) -> Stacks
        ensures { result ≡ [] }
    {
        Stacks {
            nodes: Nodes::new(alloc),
            known: KnownStacks::new(alloc),
        }
    }

    /// The nodes alone.
    pub fn nodes(&self) -> &Nodes
        ensures { result.now ≡ self.now }
    {
        &self.nodes
    }

    /// Reads the ips of a stack from their text. The answer is the stack's node, where it was read lately; else the ips are in
    /// `ips`, in the place of what that held.
    ///
    /// - `BadScriptLine` exactly where a field is no number or 0, or there are more than 256;
    /// - `NoMemory` only where memory for the ips is wanting.
    pub fn read(&self, text: &[u8], ips: &mut Vec<u64>) -> Result<Option<u32>, ScriptFault>
        ensures read { IfOk result (λ node. IsRead self.now text.now node ips.new.items) }
        ensures fault { IfErr result (RefusesIps text.now) }
    {
        if let Some(node) = self.known.find(text) {
            return Ok(Some(node));
        }
        read_ips(text, ips)?;
        Ok(None)
    }

    /// The node of a stack that was read. On `NoMemory` the nodes are as before.
    pub fn intern(&mut self, text: &[u8], node: Option<u32>, ips: &[u64]) -> Result<u32, NoMemory>
        requires read { IsRead self.old text.now node ips.now }
        requires single { AreSingle (reverse self.old) }
        requires room { length self.old + 256 ≤ 2 ^ 32 - 2 }
        ensures interned { InternsStack self.old self.new (numbers text.now) result }
        ensures words { OnOk result (AreWords (numbers text.now)) }
    {
        match node {
            Some(node) => Ok(node),
            None => {
                let node = intern(&mut self.nodes, ips)?;
                self.known.learn(text, node);
                Ok(node)
            }
        }
    }
}

/// The node of a stack of at most 256 ips. On `NoMemory` the nodes are as before.
fn intern(nodes: &mut Nodes, ips: &[u64]) -> Result<u32, NoMemory>
    requires single { AreSingle (reverse nodes.old) }
    requires few_ips { length ips.now ≤ 256 }
    requires room { length nodes.old + 256 ≤ 2 ^ 32 - 2 }
    ensures { InternsStack nodes.old nodes.new ips.now result }
{
    match nodes.intern_stack(ips) {
        Ok(node) => Ok(node),
        Err(fault) => match fault {
            NodeFault::NoMemory => Err(NoMemory),
            _ => unreachable!(),
        },
    }
}

/// Whether the nodes are the same.
pub fn are_same_nodes(nodes: &Nodes, others: &Nodes) -> bool
    requires single { AreSingle (reverse nodes.now) }
    requires other_single { AreSingle (reverse others.now) }
    ensures same { IsTrue result ↔ (nodes.now ≡ others.now) }
    ensures nodes { AreNodes nodes.now }
{
    let count = nodes.len();
    if count != others.len() {
        return false;
    }
    for number in 0..count {
        if nodes.node(number + 1) != others.node(number + 1) {
            return false;
        }
    }
    true
}
