//! The nodes of a raw trace, and the lines that each gives.
#![tactic(auto, using(hp_num::proofs::Laws::extends_same, hp_num::proofs::Laws::extends_more, hp_num::proofs::Laws::extends_trans))]

ghost use Rattle.std.specs.Prelude.{◌≡◌, None, OnOk, IfErr};
ghost use Rattle.hp_num.specs.Extends.{Extends};
ghost use Rattle.ht_trace.specs.LineFault.{Tells};
ghost use Rattle.interpret.specs.AddsNode.{AddsNewNode, AddsNode, AppendsNode, IsNew, grown_fault, held_node, new_node_fault};

use crate::instruction_lines::{add_names, put_instruction};
use crate::known_ips::{KnownIps, Numbered};
use crate::name_table::NameTable;
use crate::resolved::ResolvedIp;
use hp_num::{LONGEST_NUMBER_LINE, put_number_line};
use ht_lines::{Item, put_item};
use ht_trace::LineError;
use stack_table::Nodes;

/// A node of an instruction that has no number yet.
#[derive(Clone, Copy)]
pub struct NewNode<'a> {
    pub instruction: &'a ResolvedIp<'a>,
    /// The node that it is called from, 0 for none.
    pub parent: u64,
}

/// Adds the node of an instruction that has a number, and appends its line.
///
/// `UnknownParent`, `TooDeep` and `TooMany` come as the node table tells them. After an error the nodes and `out` are as they
/// were.
pub fn add_held_node(
    nodes: &mut Nodes,
    instruction: Numbered,
    parent: u64,
    out: &mut Vec<u8>,
) -> Result<(), LineError>
    ensures adds { AddsNode (held_node instruction parent) nodes.old nodes.new out.old out.new
        result }
    ensures kept { Extends out.old.items out.new.items }
{
    let Numbered { number, frames } = instruction;
    out.reserve(LONGEST_NUMBER_LINE)?;
    nodes.add(number, parent, frames)?;
    if put_number_line(out, b't', &[number, parent]).is_err() {
        unreachable!();
    }
    Ok(())
}

/// Adds the node of an instruction that has no number yet, with the names that it calls for, and appends the lines of the
/// new names, of the instruction and of the node.
///
/// `UnknownParent` and `TooDeep` come as the node table tells them, and leave all as it was; `TooMany` comes exactly where
/// neither does and a table would have too many entries.
pub fn add_new_node(
    names: &mut NameTable,
    ips: &mut KnownIps,
    nodes: &mut Nodes,
    version: u8,
    node: &NewNode,
    out: &mut Vec<u8>,
) -> Result<(), LineError>
    requires { IsNew names.old ips.old node.now }
    ensures adds { AddsNewNode node.now names.old ips.old nodes.old names.new ips.new nodes.new
        result }
    ensures no_fault { OnOk result
        (grown_fault nodes.old node.now names.new ips.new nodes.new ≡ None) }
    ensures fault { IfErr result
        (λ error. Tells error (new_node_fault names.old ips.old nodes.old node.now)) }
    ensures lines { OnOk result
        (AppendsNode version node.now names.old names.new ips.old out.old out.new) }
    ensures kept { Extends out.old.items out.new.items }
{
    let NewNode {
        instruction,
        parent,
    } = *node;
    let number = ips.next_number();
    let frames = instruction.frame_count();
    nodes.add(number, parent, frames)?;
    ips.add(instruction.ip, frames)?;
    add_names(names, version, instruction, out)?;
    put_instruction(names, instruction, out)?;
    put_item(version, &Item::Node { ip: number, parent }, out)?;
    Ok(())
}
