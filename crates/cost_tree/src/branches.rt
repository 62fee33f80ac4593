//! A tree that grows along a shape, by one list after another: each list's way up to a node that the tree has, and then
//! the nodes that are missing, downwards. What nodes cost with those below them is summed up when all lists are in.
ghost use Rattle.std.specs.Prelude.{◌≡◌, ◌*◌, ◌+◌, ◌-◌, ◌^◌, ◌<◌, ◌≤◌, [], ◌∷◌, length, IfOk, OnOk, slice_index, sum, sum_by};
ghost use Rattle.cost_tree.specs.Building.{AreReached, GrowsBy, IsBuilt, IsMade, IsStarted, StaysBuilt};
ghost use Rattle.cost_tree.specs.Growth.{HasGrownFor, counted, ended, weight};
ghost use Rattle.cost_tree.specs.Shapes.{HasEdge, IsShape, LeadToFronts};
ghost use Rattle.cost_tree.specs.TreeParts.{IsRooted, IsTreeFor};
ghost use Rattle.cost_tree.specs.Paths.{IsPathUp};

use crate::edge::Edge;
use crate::edges::edge_of;
use crate::node::CostNode;
use crate::summing::sum_up;
use hp_num::NoMemory;
use std::alloc::Global;

/// The nodes so far, and which nodes of a shape they are. Node 0 has no edge, and node n has edge n - 1.
#[derive(Drop)]
pub(crate) struct Branches {
    pub(crate) edges: Vec<Edge>,
    pub(crate) nodes: Vec<CostNode>,
    /// How many texts a node's front has.
    levels: Vec<usize>,
    /// For each node of the shape one more than its node's number, and 0 where it has none.
    numbered: Vec<usize>,
    /// What a list still needs of the shape's nodes, the next one last.
    path: Vec<usize>,
}

impl Branches {
    /// The nodes of the fronts of at most `depth` numbers of lists with these costs, or `NoMemory`. The lists end at these of
    /// the nodes to which the edges lead. The nodes are made in the vectors of the room.
    pub(crate) fn of(
        room: Branches,
        edges: &[Edge],
        ends: &[usize],
        costs: &[u64],
        depth: usize,
    ) -> Result<Branches, NoMemory>
        requires shape { IsShape edges.now ends.now }
        requires as_many { length costs.now ≡ length ends.now }
        requires bound { sum costs.now ≤ 2 ^ 62 }
        ensures tree { IfOk result (IsTreeFor edges.now ends.now costs.now depth) }
        ensures rooted { IfOk result IsRooted }
    {
        let mut branches = Branches::grown(room, edges, ends, costs, depth)?;
        sum_up(&mut branches.nodes);
        Ok(branches)
    }

    /// The nodes with what the lists cost that end at each or are cut there, and node 0 with what all cost.
    fn grown(
        room: Branches,
        edges: &[Edge],
        ends: &[usize],
        costs: &[u64],
        depth: usize,
    ) -> Result<Branches, NoMemory>
        requires shape { IsShape edges.now ends.now }
        requires as_many { length costs.now ≡ length ends.now }
        requires bound { sum costs.now ≤ 2 ^ 62 }
        ensures grown { IfOk result (HasGrownFor edges.now ends.now costs.now depth) }
        ensures rooted { IfOk result IsRooted }
        ensures within { IfOk result
            (λ branches. sum_by weight branches.nodes.items ≤ 3 * 2 ^ 62) }
    {
        let mut branches = room.started(edges.len())?;
        'each_list: for list in 0..costs.len() {
            if costs[list] == 0 {
                continue;
            }
            branches.add(edges, ends[list], list as u32, costs[list], depth)?;
        }
        Ok(branches)
    }

    /// No nodes. It takes no memory; that of the nodes to come is taken from `alloc`.
    pub(crate) fn new(alloc: Global) -> Branches {
        Branches {
            edges: Vec::new(alloc),
            nodes: Vec::new(alloc),
            levels: Vec::new(alloc),
            numbered: Vec::new(alloc),
            path: Vec::new(alloc),
        }
    }

    /// Node 0 alone, along a shape with so many edges, in the place of what is held, or `NoMemory`.
    fn started(self, edges: usize) -> Result<Branches, NoMemory>
        requires few { edges < 2 ^ 63 }
        ensures started { IfOk result (λ branches. IsStarted edges branches) }
    {
        let root = CostNode {
            parent: 0,
            cost: 0,
            own: 0,
            first: 0,
        };
        let mut started = self;
        // The tree has no more nodes than the shape, so that none is moved while it grows.
        start(&mut started.nodes, edges + 1, root)?;
        start(&mut started.levels, edges + 1, 0)?;
        started.edges.clear();
        started.edges.reserve(edges)?;
        started.numbered.clear();
        started.numbered.resize(edges + 1, 0)?;
        started.numbered[0] = 1;
        Ok(started)
    }

    /// The same without what only a growing tree needs.
    pub(crate) fn settled(self, alloc: Global) -> Branches
        ensures edges { result.edges.items ≡ self.edges.items }
        ensures nodes { result.nodes.items ≡ self.nodes.items }
    {
        Branches {
            edges: self.edges,
            nodes: self.nodes,
            levels: Vec::new(alloc),
            numbered: Vec::new(alloc),
            path: Vec::new(alloc),
        }
    }

    /// Adds the list that ends at a node of the shape and costs something: its cost to node 0, to the node of its first
    /// `depth` numbers, and to that node's own cost where it has no more. `NoMemory` leaves the tree unfit for use.
    fn add(
        &mut self,
        edges: &[Edge],
        end: usize,
        list: u32,
        cost: u64,
        depth: usize,
    ) -> Result<(), NoMemory>
        requires steps { LeadToFronts edges.now }
        requires end { end ≤ length edges.now }
        requires cost { 0 < cost }
        requires built { IsBuilt edges.now self.old }
        requires room { sum_by weight self.old.nodes.items + 3 * cost < 2 ^ 64 }
        ensures built { OnOk result (IsBuilt edges.now self.new) }
        ensures weight { OnOk result
            (sum_by weight self.new.nodes.items ≤ sum_by weight self.old.nodes.items + 3 * cost) }
        ensures grown { OnOk result
            (GrowsBy edges.now end list cost depth self.old self.new) }
    {
        count(&mut self.nodes[0], list, cost);
        let node = self.number(edges, end, list, depth)?;
        let is_whole = self.path.is_empty();
        end_at(&mut self.nodes[node], node, is_whole, cost);
        Ok(())
    }

    /// The node of the first `depth` numbers of the list that ends at a node of the shape. It is made where there is none
    /// yet, and so are those above it. What is left of `path` is beyond it.
    fn number(
        &mut self,
        edges: &[Edge],
        end: usize,
        list: u32,
        depth: usize,
    ) -> Result<usize, NoMemory>
        requires steps { LeadToFronts edges.now }
        requires end { end ≤ length edges.now }
        requires built { IsBuilt edges.now self.old }
        ensures stays { OnOk result (StaysBuilt edges.now self.old self.new) }
        ensures held { IfOk result (λ n. n < length self.new.nodes.items) }
        ensures reached { IfOk result
            (λ n. AreReached edges.now end list depth self.old self.new n) }
    {
        let mut node = climb(edges, &self.numbered, end, &mut self.path)?;
        'each_node: while self.levels[node] < depth {
            let Some(place) = self.path.pop() else {
                return Ok(node);
            };
            node = self.make(edges, node, place, list)?;
        }
        Ok(node)
    }

    /// The node of a node of the shape that has none yet, below the node of the shape's node above it.
    fn make(
        &mut self,
        edges: &[Edge],
        parent: usize,
        place: usize,
        list: u32,
    ) -> Result<usize, NoMemory>
        requires place { HasEdge edges.now place }
        requires parent { parent < length self.old.nodes.items }
        requires level { slice_index self.old.levels.items parent < 2 ^ 64 - 1 }
        requires built { IsBuilt edges.now self.old }
        ensures made { IfOk result
            (λ n. IsMade edges.now parent place list self.old self.new n) }
        ensures built { OnOk result (IsBuilt edges.now self.new) }
        ensures weight { OnOk result
            (sum_by weight self.new.nodes.items ≡ sum_by weight self.old.nodes.items) }
    {
        let text = edge_of(edges, place).text;
        let level = self.levels[parent] + 1;
        self.edges.push(Edge { parent, text })?;
        self.nodes.push(CostNode {
            parent,
            cost: 0,
            own: 0,
            first: list,
        })?;
        self.levels.push(level)?;
        let node = self.edges.len();
        self.numbered[place] = node + 1;
        Ok(node)
    }
}

/// Replaces what the vector holds by its first element, and gives it room for so many.
fn start<T: Drop>(vector: &mut Vec<T>, count: usize, first: T) -> Result<(), NoMemory>
    ensures first { OnOk result (vector.new.items ≡ first ∷ []) }
{
    vector.clear();
    vector.reserve(count)?;
    vector.push(first)?;
    Ok(())
}

/// Replaces `path` by the nodes of the shape from the end up to the first that has a node of the tree, without this one,
/// and answers its node.
fn climb(
    edges: &[Edge],
    numbered: &[usize],
    end: usize,
    path: &mut Vec<usize>,
) -> Result<usize, NoMemory>
    requires steps { LeadToFronts edges.now }
    requires end { end ≤ length edges.now }
    requires count { length numbered.now ≡ length edges.now + 1 }
    requires root { slice_index numbered.now 0 ≡ 1 }
    ensures way { IfOk result
        (λ n. IsPathUp edges.now numbered.now end path.new.items n) }
{
    path.clear();
    let mut place = end;
    'each_node: while numbered[place] == 0 {
        path.push(place)?;
        place = edge_of(edges, place).parent;
    }
    Ok(numbered[place] - 1)
}

/// Adds the cost of the list to that of node 0.
fn count(root: &mut CostNode, list: u32, cost: u64)
    requires { root.old.cost + cost < 2 ^ 64 }
    ensures { root.new ≡ counted root.old list cost }
{
    if root.cost == 0 {
        root.first = list;
    }
    root.cost += cost;
}

/// Adds the cost of a list that ends at a node or is cut there. Node 0 has it in its cost already.
fn end_at(node: &mut CostNode, n: usize, is_whole: bool, cost: u64)
    requires cost { node.old.cost + cost < 2 ^ 64 }
    requires own { node.old.own + cost < 2 ^ 64 }
    ensures { node.new ≡ ended n is_whole cost node.old }
{
    if n > 0 {
        node.cost += cost;
    }
    if is_whole {
        node.own += cost;
    }
}
