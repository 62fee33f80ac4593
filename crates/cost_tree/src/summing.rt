//! What nodes cost with those below them.
ghost use Rattle.std.specs.Prelude.{◌^◌, ◌<◌, length, sum_by};
ghost use Rattle.cost_tree.specs.Growth.{weight};
ghost use Rattle.cost_tree.specs.Summed.{AreSums};
ghost use Rattle.cost_tree.specs.Children.{AreBehindParents};

use crate::node::CostNode;

/// Adds to each node's cost those of its children, which stand behind it, and what these have of theirs. Node 0 stays as it
/// is.
pub(crate) fn sum_up(nodes: &mut Vec<CostNode>)
    requires some { 0 < length nodes.old.items }
    requires lower { AreBehindParents nodes.old.items }
    requires within { sum_by weight nodes.old.items < 2 ^ 64 }
    ensures sums { AreSums nodes.old.items nodes.new.items }
{
    'each_node: for done in 1..nodes.len() {
        let n = nodes.len() - done;
        let node = nodes[n];
        if node.parent > 0 {
            nodes[node.parent].cost += node.cost;
        }
    }
}
