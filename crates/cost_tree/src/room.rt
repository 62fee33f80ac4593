//! Vectors in which trees are made one after another: each takes memory anew only where it's larger than those before.
//! What they hold is no part of a tree.
use crate::branches::Branches;
use crate::ends::EndedCosts;
use crate::links::Link;
use std::alloc::Global;

/// The vectors that a tree is made in.
#[derive(Drop)]
pub struct TreeRoom {
    /// What each list costs in a tree.
    pub(crate) costs: Vec<u64>,
    /// What lists cost together that begin with each text.
    pub(crate) firsts: Vec<u64>,
    pub(crate) cut: CutRoom,
    pub(crate) nodes: NodeRoom,
}

/// Those by which lists are made longer.
#[derive(Drop)]
pub(crate) struct CutRoom {
    pub(crate) ended: EndedCosts,
    /// How many numbers each list is to have.
    pub(crate) counts: Vec<usize>,
}

/// Those of a tree's nodes.
#[derive(Drop)]
pub(crate) struct NodeRoom {
    pub(crate) branches: Branches,
    pub(crate) links: Vec<Link>,
}

impl TreeRoom {
    /// Room that takes no memory yet; it's taken from `alloc` as it's needed.
    pub(crate) fn new(alloc: Global) -> TreeRoom {
        TreeRoom {
            costs: Vec::new(alloc),
            firsts: Vec::new(alloc),
            cut: CutRoom::new(alloc),
            nodes: NodeRoom::new(alloc),
        }
    }
}

impl CutRoom {
    /// Room that takes no memory yet.
    pub(crate) fn new(alloc: Global) -> CutRoom {
        CutRoom {
            ended: EndedCosts::new(alloc),
            counts: Vec::new(alloc),
        }
    }
}

impl NodeRoom {
    /// Room that takes no memory yet.
    pub(crate) fn new(alloc: Global) -> NodeRoom {
        NodeRoom {
            branches: Branches::new(alloc),
            links: Vec::new(alloc),
        }
    }
}
