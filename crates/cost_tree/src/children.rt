//! The children of a node as lines show them: the costly ones by descending cost, and the others gathered.
ghost use Rattle.std.specs.Prelude.{◌≡◌, ◌<◌, ◌≤◌, ◌^◌, ◌++◌, All, AllPairs, length, sum_by, OnOk, IfOk};
ghost use Rattle.cost_tree.specs.Order.{by_cost};
ghost use Rattle.cost_tree.specs.Shares.{cost_at, kept_of, small_of};

use crate::scale::Scale;
use crate::tree::CostTree;
use hp_num::NoMemory;
use std::cmp::Reverse;

/// A child of a node, and what it costs.
#[derive(Clone, Copy)]
pub(crate) struct Child {
    pub(crate) node: usize,
    pub(crate) cost: u64,
}

/// What is too small for lines of its own.
#[derive(Clone, Copy)]
pub struct Gathered {
    /// How many places there are.
    pub(crate) places: u64,
    /// What they cost together.
    pub(crate) cost: u64,
}

/// Appends the nodes that have lines of their own to `kept`, in their order, and gathers the others.
pub(crate) fn split_children(
    tree: &CostTree,
    scale: Scale,
    nodes: &[usize],
    kept: &mut Vec<Child>,
) -> Result<Gathered, NoMemory>
    requires held { All (λ m. m < length tree.now.nodes) nodes.now }
    requires few { length nodes.now < 2 ^ 64 }
    requires within { sum_by (cost_at tree.now) nodes.now ≤ 2 ^ 62 }
    ensures kept { OnOk result
        (kept.new.items ≡ kept.old.items ++ kept_of scale tree.now nodes.now) }
    ensures gathered { IfOk result (λ gathered. gathered ≡ small_of scale tree.now nodes.now) }
{
    let mut gathered = Gathered { places: 0, cost: 0 };
    'each_node: for node in nodes {
        let cost = tree.cost(*node);
        if scale.is_small(cost) {
            gathered.places += 1;
            gathered.cost += cost;
        } else {
            kept.push(Child { node: *node, cost })?;
        }
    }
    Ok(gathered)
}

/// Sorts the children by descending cost; of equal ones the one with the lower number comes first. They come by ascending
/// number.
pub(crate) fn sort_children(children: &mut Vec<Child>)
    requires ascending { AllPairs (λ older younger. older.node < younger.node) children.old.items }
    ensures sorted { children.new.items ≡ by_cost (λ child. child.cost) children.old.items }
{
    children.sort_unstable_by_key(|child| (Reverse(child.cost), child.node));
}
