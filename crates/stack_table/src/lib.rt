//! The nodes of heap traces: each is an instruction pointer called from its parent's, so that a node stands for a whole
//! stack. What an instruction pointer means, and the lines of trace files, are no part of it.
//!
//! What it promises of `Nodes`, whose numbers begin at 1:
//!
//! - `add` takes a node as it comes, so that equal ones may stand in the list. `intern` answers the least node with an
//!   instruction and a parent, and adds one only where there is none; `intern_stack` does so for a whole stack, from
//!   its outermost instruction on (`node_interned` and `stack_interned` say which nodes and which number,
//!   `node_interned_fault` and `stack_fault` why not). A node or a stack that is held is never refused.
//! - `stack_into` gives the instructions from a node outwards, which `stack` defines by recursion. A node's parent is
//!   always an earlier one, and a stack has at most 4,096 frames.
//! - `cut` keeps the first nodes. But for that the list only grows: `Continues` says that each old node, its stack, its
//!   frames and the least number of its instruction and parent stay.
//! - `NodeFault::text` says what a fault is called.
//!
//! The index that `intern` looks into is brought up to date there, so `add` pays nothing for it. The crates above may cite
//! its `proofs/Laws`: on lists of nodes that grow, and on the stacks of the newest node and of older ones. The tests of
//! these calls are in the crate `ht_trace_tests`.
#![tactic(auto)]

mod fault;
mod node_entry;
mod node_index;
mod nodes;

pub use fault::NodeFault;
pub use nodes::{MOST_FRAMES, Nodes};
