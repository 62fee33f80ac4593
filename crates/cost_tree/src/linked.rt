//! The nodes of a tree with the links to their children, by the numbers of a shape.
ghost use Rattle.std.specs.Prelude.{IfOk};
ghost use Rattle.cost_tree.specs.TreeParts.{IsRooted, KeepsTree};

use crate::branches::Branches;
use crate::links::{Link, Links};
use crate::node::CostNode;
use hp_num::NoMemory;
use std::alloc::Global;
use std::mem;

/// A tree but for the names of its texts.
#[derive(Drop)]
pub(crate) struct Linked {
    pub(crate) nodes: Vec<CostNode>,
    pub(crate) links: Links,
    /// What the nodes were made in.
    pub(crate) room: Branches,
}

impl Linked {
    /// The branches with their links, which are made in this vector, or `NoMemory`.
    pub(crate) fn of(
        alloc: Global,
        links: Vec<Link>,
        branches: Branches,
    ) -> Result<Linked, NoMemory>
        requires rooted { IsRooted branches }
        ensures tree { IfOk result (KeepsTree branches) }
    {
        let links = Links::of(links, &branches.edges, &branches.nodes)?;
        let mut room = branches;
        let nodes = mem::replace(&mut room.nodes, Vec::new(alloc));
        Ok(Linked { nodes, links, room })
    }
}
