//! The tree of inclusive costs, and what its nodes say.
//! How its nodes are made is in `linked`.
ghost use Rattle.std.specs.Prelude.{◌≡◌, ◌+◌, ◌^◌, ◌<◌, ◌≤◌, [], ◌++◌, length, sum, Some, IfOk, OnOk, OnErr, IsOk, AllPairs, slice_get, vec_capacity};
ghost use Rattle.cost_tree.specs.ChildNodes.{AreChildNodes};
ghost use Rattle.cost_tree.specs.Children.{HasAllChildren, HasOnlyChildren, children_of};
ghost use Rattle.cost_tree.specs.Costed.{costed};
ghost use Rattle.cost_tree.specs.Costs.{HasCosts, IsStated};
ghost use Rattle.cost_tree.specs.IsTreeOf.{IsTreeOf};
ghost use Rattle.cost_tree.specs.CostLines.{last_of};
ghost use Rattle.cost_tree.specs.Texts.{AreTexts, lists_of, text_of};
ghost use Rattle.cost_tree.specs.Shares.{cost_at};
ghost use Rattle.cost_tree.specs.TreeLines.{EndsFront, HasLines, HasLinesOfStated, IsTreeOfStated, LengthensFront, front_at};

use crate::branches::Branches;
use crate::caller_lists::CallerLists;
use crate::child_nodes::ChildNodes;
use crate::costing::Costing;
use crate::cut_fronts::CutFronts;
use crate::fronts::Fronts;
use crate::held_names::HeldNames;
use crate::linked::Linked;
use crate::links::Links;
use crate::node::CostNode;
use crate::room::{NodeRoom, TreeRoom};
use crate::shape::Shape;
use hp_num::NoMemory;
use intern_tables::Names;
use std::alloc::Global;
use std::marker::Model;
use std::mem;

/// The fronts of some stacks' texts, each with what the stacks cost that begin with it. Its texts are those of the lists that
/// it was made of, or its own where these were let go.
#[derive(Drop)]
pub struct CostTree<'a> {
    pub(crate) names: HeldNames<'a>,
    pub(crate) nodes: Vec<CostNode>,
    pub(crate) links: Links,
}

impl<'a> Model for CostTree<'a> {
    ghost use Rattle.cost_tree.specs.TreeState.{TreeState};

    ghost Value = { TreeState };

    ghost use Rattle.cost_tree.specs.View.{state_of, IsWhole};

    ghost view = { state_of };

    ghost invariant = { IsWhole };
}

impl<'a> CostTree<'a> {
    /// The tree of the lists with these costs, to fronts of at most `depth` texts, or `NoMemory`. It has lines, as
    /// `cost_lines` gives them.
    pub fn of_fronts<F: Fn(u32) -> u64>(
        alloc: Global,
        fronts: &'a Fronts,
        costing: &Costing<F>,
        depth: u32,
    ) -> Result<CostTree<'a>, NoMemory>
        requires as_many { costing.now.stacks ≡ length fronts.now }
        requires stated { IsStated F.pre F.post costing.now }
        ensures tree { IfOk result
            (IsTreeOfStated (HasCosts F.pre F.post costing.now) fronts.now depth) }
        ensures lines { IfOk result
            (HasLinesOfStated (HasCosts F.pre F.post costing.now) fronts.now depth) }
    {
        let costs = costing.list(alloc)?;
        CostTree::of_costs(alloc, fronts, &costs, depth)
    }

    /// The tree of the lists as they are cut, to fronts of at most `depth` texts and with the costs of the room, or `NoMemory`.
    /// It's made in the vectors of the room, which `into_room` gives back.
    pub fn of_cut(
        alloc: Global,
        fronts: &'a CutFronts,
        depth: u32,
        room: &mut TreeRoom,
    ) -> Result<CostTree<'a>, NoMemory>
        requires as_many { length room.old.costs.items ≡ length fronts.now.cut }
        requires bound { sum room.old.costs.items ≤ 2 ^ 62 }
        ensures lines { IfOk result
            (λ tree. HasLines tree (costed fronts.now.cut room.old.costs.items) depth) }
    {
        let TreeRoom { costs, nodes, .. } = room;
        let CutFronts { names, cut, .. } = fronts;
        CostTree::of_shape(alloc, names, &cut.shape, costs, depth, nodes)
    }

    /// Puts the vectors of the tree into the room.
    pub fn into_room(self, room: &mut TreeRoom) {
        let CostTree { nodes, links, .. } = self;
        room.nodes.branches.nodes = nodes;
        room.nodes.links = links.links;
    }

    /// The tree of the lists with these costs, to fronts of at most `depth` texts, or `NoMemory`. It has their texts for its own,
    /// and lets go all else of the lists.
    pub fn of_lists(
        alloc: Global,
        lists: CallerLists,
        costs: &[u64],
        depth: u32,
    ) -> Result<CostTree<'a>, NoMemory>
        requires as_many { length costs.now ≡ length lists }
        requires bound { sum costs.now ≤ 2 ^ 62 }
        ensures tree { IfOk result (λ tree. IsTreeOf tree (costed lists costs.now) depth) }
    {
        let lists = lists.fronts(alloc)?;
        CostTree::of_own(alloc, lists, costs, depth)
    }

    /// The tree of the lists with these costs, or `NoMemory`.
    fn of_costs(
        alloc: Global,
        fronts: &'a Fronts,
        costs: &[u64],
        depth: u32,
    ) -> Result<CostTree<'a>, NoMemory>
        requires as_many { length costs.now ≡ length fronts.now }
        requires bound { sum costs.now ≤ 2 ^ 62 }
        ensures tree { IfOk result (λ tree. IsTreeOf tree (costed fronts.now costs.now) depth) }
        ensures lines { IfOk result (λ tree. HasLines tree (costed fronts.now costs.now) depth) }
    {
        let Fronts { names, shape } = fronts;
        CostTree::of_shape(alloc, names, shape, costs, depth, &mut NodeRoom::new(alloc))
    }

    /// The tree of the lists of texts that the shape's numbers are those of, with these costs, or `NoMemory`. The room keeps
    /// what it needed but its nodes and links.
    pub(crate) fn of_shape(
        alloc: Global,
        names: &'a Names,
        shape: &Shape,
        costs: &[u64],
        depth: u32,
        room: &mut NodeRoom,
    ) -> Result<CostTree<'a>, NoMemory>
        requires texts { AreTexts names.now shape.now }
        requires as_many { length costs.now ≡ length shape.now }
        requires bound { sum costs.now ≤ 2 ^ 62 }
        ensures lines { IfOk result
            (λ tree. HasLines tree (costed (lists_of names.now shape.now) costs.now) depth) }
        ensures names { IfOk result (λ tree. tree.names ≡ names.now) }
    {
        // Says that no two names are equal, and that there are few lists.
        let _count = names.len();
        let _lists = shape.len();
        let edges = shape.edges.list();
        let NodeRoom { branches, links } = mem::replace(room, NodeRoom::new(alloc));
        let branches = Branches::of(branches, edges, &shape.ends, costs, depth as usize)?;
        let linked = Linked::of(alloc, links, branches)?;
        let Linked {
            nodes,
            links,
            room: branches,
        } = linked;
        room.branches = branches;
        Ok(CostTree {
            names: HeldNames::Lent { names },
            nodes,
            links,
        })
    }

    /// How many nodes there are: at least one.
    pub fn len(&self) -> usize
        ensures nodes { result ≡ length self.now.nodes }
        ensures fronts { result ≡ length self.now.fronts }
        ensures some { 0 < result }
    {
        self.nodes.len()
    }

    /// The figures of node `n`, which must be held.
    pub fn node(&self, n: usize) -> CostNode
        requires held { n < length self.now.nodes }
        ensures node { slice_get self.now.nodes n ≡ Some result }
        ensures lower { 0 < n → result.parent < n }
        ensures root { n ≡ 0 → result.parent ≡ 0 }
    {
        self.nodes[n]
    }

    /// What node `n` costs, which must be held.
    pub(crate) fn cost(&self, n: usize) -> u64
        requires held { n < length self.now.nodes }
        ensures { result ≡ cost_at self.now n }
    {
        self.links.cost(n)
    }

    /// The last text of the front of node `n`, which must be held; it is empty for node 0.
    pub fn text(&self, n: usize) -> &[u8]
        requires held { n < length self.now.nodes }
        ensures root { n ≡ 0 → result.now ≡ [] }
        ensures last { 0 < n → EndsFront self.now n result.now }
        ensures below { LengthensFront self.now n result.now }
    {
        if n == 0 {
            return &[];
        }
        self.names.names().name(self.links.text(n)).unwrap_or(&[])
    }

    /// The number of that text; 0 for node 0.
    pub(crate) fn text_number(&self, n: usize) -> usize
        requires held { n < length self.now.nodes }
        ensures number { text_of self.now.names result ≡ last_of (front_at self.now n) }
    {
        self.links.text(n)
    }

    /// The children of node `n`, which must be held.
    pub(crate) fn child_nodes(&self, n: usize) -> ChildNodes
        requires held { n < length self.now.nodes }
        ensures { AreChildNodes result (children_of self.now.nodes n) }
    {
        let child = self.links.first_child(n);
        if child == 0 {
            return ChildNodes::None;
        }
        if self.links.next_sibling(child) == 0 {
            return ChildNodes::One { child };
        }
        ChildNodes::Several
    }

    /// Replaces `out` by the children of node `n`, which must be held, by ascending `first`.
    pub fn children_into(&self, n: usize, out: &mut Vec<usize>) -> Result<(), NoMemory>
        requires held { n < length self.now.nodes }
        ensures children { OnOk result (out.new.items ≡ children_of self.now.nodes n) }
        ensures all { OnOk result (HasAllChildren self.now.nodes n out.new.items) }
        ensures only { OnOk result (HasOnlyChildren self.now.nodes n out.new.items) }
        ensures order { OnOk result (AllPairs (λ older younger. older < younger) out.new.items) }
        ensures unchanged { OnErr result (out.new.items ≡ out.old.items) }
    {
        let count = self.child_count(n);
        out.reserve(count.saturating_sub(out.len()))?;
        out.clear();
        self.push_children(n, out)
    }

    /// Appends the children of node `n`.
    fn push_children(&self, n: usize, out: &mut Vec<usize>) -> Result<(), NoMemory>
        requires held { n < length self.now.nodes }
        ensures children { OnOk result
            (out.new.items ≡ out.old.items ++ children_of self.now.nodes n) }
        ensures room { length out.old.items + length (children_of self.now.nodes n)
            ≤ vec_capacity out.old → IsOk result }
    {
        let mut child = self.links.first_child(n);
        'each_child: while child != 0 {
            out.push(child)?;
            child = self.links.next_sibling(child);
        }
        Ok(())
    }

    /// How many children node `n` has.
    fn child_count(&self, n: usize) -> usize
        requires held { n < length self.now.nodes }
        ensures { result ≡ length (children_of self.now.nodes n) }
    {
        let mut count = 0;
        let mut child = self.links.first_child(n);
        'each_child: while child != 0 {
            count += 1;
            child = self.links.next_sibling(child);
        }
        count
    }
}
