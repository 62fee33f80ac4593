//! The tree of lists that are let go while it's made.
ghost use Rattle.std.specs.Prelude.{◌≡◌, ◌^◌, ◌≤◌, length, sum, IfOk};
ghost use Rattle.cost_tree.specs.Costed.{costed};
ghost use Rattle.cost_tree.specs.TreeLines.{HasLines};

use crate::branches::Branches;
use crate::fronts::Fronts;
use crate::held_names::HeldNames;
use crate::linked::Linked;
use crate::shape::Shape;
use crate::tree::CostTree;
use hp_num::NoMemory;
use std::alloc::Global;

impl<'a> CostTree<'a> {
    /// The tree of the lists with these costs, to fronts of at most `depth` texts, or `NoMemory`. It has their texts for its own,
    /// and lets go all else of the lists.
    pub fn of_own(
        alloc: Global,
        lists: Fronts,
        costs: &[u64],
        depth: u32,
    ) -> Result<CostTree<'a>, NoMemory>
        requires as_many { length costs.now ≡ length lists }
        requires bound { sum costs.now ≤ 2 ^ 62 }
        ensures lines { IfOk result (λ tree. HasLines tree (costed lists costs.now) depth) }
    {
        let Fronts { names, shape } = lists;
        // Says that no two names are equal, and that there are few lists.
        let _count = names.len();
        let _lists = shape.len();
        let Shape { edges, ends } = shape;
        // The index of the edges is let go before the tree grows.
        let edges = edges.into_list();
        let room = Branches::new(alloc);
        let grown = Branches::of(room, &edges, &ends, costs, depth as usize)?;
        drop(edges);
        drop(ends);
        let branches = grown.settled(alloc);
        let Linked { nodes, links, .. } = Linked::of(alloc, Vec::new(alloc), branches)?;
        Ok(CostTree {
            names: HeldNames::Own { names },
            nodes,
            links,
        })
    }
}
