//! The nodes of a recorded trace, and the lines of new ones.
#![tactic(auto, using(hp_num::proofs::Laws::extends_same, hp_num::proofs::Laws::extends_more, hp_num::proofs::Laws::extends_trans))]

ghost use Rattle.std.specs.Prelude.{◌≡◌, ℕ, ◌+◌, ◌-◌, ◌^◌, ◌≤◌, List, length, IfOk, OnErr};
ghost use Rattle.hp_num.specs.Extends.{Extends};
ghost use Rattle.stack_table.specs.Stack.{stack as stack_of};
ghost use Rattle.record_book.specs.MappedNodes.{HasNodeRoom, PutsStack, ips_of};
ghost use Rattle.record_book.specs.NodeState.{AreNumbered, CanCall, GrowsNodes, InternsNode, PutsNode, PutsNodes};

use crate::turn_stack::TurnStack;
use hp_num::NoMemory;
use ht_lines::{Item, put_item};
use record_scripts::FILE_VERSION;
use stack_table::{NodeFault, Nodes};

/// The node of a stack. Where it isn't known, the lines of new nodes are appended to `text`, the outermost first.
///
/// On `NoMemory` some of the nodes and of their lines may stand.
pub fn put_stack(nodes: &mut Nodes, stack: TurnStack, text: &mut Vec<u8>) -> Result<u32, NoMemory>
    requires few_ips { length (ips_of nodes.old stack) ≤ 256 }
    requires room { HasNodeRoom nodes.old stack }
    ensures put { IfOk result
        (PutsStack nodes.old nodes.new stack.entry text.old.items text.new.items) }
    ensures stack { IfOk result (λ node. stack_of nodes.new node ≡ ips_of nodes.old stack.entry) }
    ensures grown { GrowsNodes nodes.old nodes.new 256 result }
    ensures kept { Extends text.old.items text.new.items }
{
    match stack {
        TurnStack::Known(node) => Ok(node),
        TurnStack::Ips(ips) => put_nodes(nodes, ips, text),
    }
}

/// The node of a stack, given from its innermost ip outwards; the lines of new nodes are appended to `text`, the outermost
/// first.
fn put_nodes(nodes: &mut Nodes, ips: &[u64], text: &mut Vec<u8>) -> Result<u32, NoMemory>
    requires numbered { (known : List (List ℕ)) × AreNumbered nodes.old known }
    requires few_ips { length ips.now ≤ 256 }
    requires room { length nodes.old + 256 ≤ 2 ^ 32 - 2 }
    ensures put { IfOk result
        (PutsNodes nodes.old nodes.new ips.now text.old.items text.new.items) }
    ensures grown { GrowsNodes nodes.old nodes.new 256 result }
    ensures kept { Extends text.old.items text.new.items }
{
    let mut parent = 0;
    for ip in ips.iter().rev() {
        parent = put_node(nodes, *ip, parent, text)?;
    }
    Ok(parent)
}

/// The node of an ip that is called from a node, with its line where it is new.
fn put_node(nodes: &mut Nodes, ip: u64, parent: u32, text: &mut Vec<u8>) -> Result<u32, NoMemory>
    requires { CanCall nodes.old parent }
    ensures next { IfOk result
        (PutsNode nodes.old nodes.new ip parent text.old.items text.new.items) }
    ensures grown { GrowsNodes nodes.old nodes.new 1 result }
    ensures kept { Extends text.old.items text.new.items }
{
    let len = nodes.len();
    let node = intern(nodes, ip, parent)?;
    if nodes.len() > len {
        let parent = u64::from(parent);
        put_item(FILE_VERSION, &Item::Node { ip, parent }, text)?;
    }
    Ok(node)
}

/// The number of the node of an ip that is called from a node. On `NoMemory` the nodes are as before.
fn intern(nodes: &mut Nodes, ip: u64, parent: u32) -> Result<u32, NoMemory>
    requires { CanCall nodes.old parent }
    ensures interned { IfOk result (InternsNode nodes.old nodes.new ip parent) }
    ensures grown { GrowsNodes nodes.old nodes.new 1 result }
    ensures unchanged { OnErr result (nodes.new ≡ nodes.old) }
{
    match nodes.intern(ip, u64::from(parent), 1) {
        Ok(node) => Ok(node),
        Err(fault) => match fault {
            NodeFault::NoMemory => Err(NoMemory),
            _ => unreachable!(),
        },
    }
}
