//! What a walk over a tree reads of a node, side by side: what it costs, its text, and the links from a node to its first child and
//! from a child to the next. A walk goes to nodes that are far from one another, and fetches one place of memory for each so.
ghost use Rattle.std.specs.Prelude.{◌≡◌, ◌+◌, ◌<◌, length, replicate, IfOk, slice_index};
ghost use Rattle.cost_tree.specs.Children.{AreBehindParents, AreLinks};
ghost use Rattle.cost_tree.specs.NodeLinks.{AreBeside, AreNodeLinks, costs_in, firsts_in, nexts_in, texts_in};

use crate::edge::Edge;
use crate::node::CostNode;
use hp_num::NoMemory;

/// What is read of a node.
#[derive(Clone, Copy)]
pub(crate) struct Link {
    cost: u64,
    /// The number of the last text of its front; 0 at node 0.
    text: usize,
    /// 0 where it has no child.
    first_child: usize,
    /// The next child of its parent; 0 where there is none.
    next_sibling: usize,
}

/// The links of all nodes, by their numbers.
#[derive(Drop)]
pub(crate) struct Links {
    pub(crate) links: Vec<Link>,
}

impl Links {
    /// The links of the nodes, each of which stands behind its parent, or `NoMemory`. Node 0 has no edge, and node n has edge
    /// n - 1. They are made in the vector of the room.
    pub(crate) fn of(room: Vec<Link>, edges: &[Edge], nodes: &[CostNode]) -> Result<Links, NoMemory>
        requires count { length nodes.now ≡ length edges.now + 1 }
        requires lower { AreBehindParents nodes.now }
        ensures links { IfOk result (λ links. AreNodeLinks edges.now nodes.now links.links.items) }
    {
        let mut links = unlinked(room, edges, nodes)?;
        link_up(nodes, &mut links);
        Ok(Links { links })
    }

    /// What node `n` costs, which must be held.
    pub(crate) fn cost(&self, n: usize) -> u64
        requires held { n < length self.now.links.items }
        ensures { result ≡ slice_index (costs_in self.now.links.items) n }
    {
        self.links[n].cost
    }

    /// The number of its text.
    pub(crate) fn text(&self, n: usize) -> usize
        requires held { n < length self.now.links.items }
        ensures { result ≡ slice_index (texts_in self.now.links.items) n }
    {
        self.links[n].text
    }

    /// Its first child, or 0.
    pub(crate) fn first_child(&self, n: usize) -> usize
        requires held { n < length self.now.links.items }
        ensures { result ≡ slice_index (firsts_in self.now.links.items) n }
    {
        self.links[n].first_child
    }

    /// The next child of its parent, or 0.
    pub(crate) fn next_sibling(&self, n: usize) -> usize
        requires held { n < length self.now.links.items }
        ensures { result ≡ slice_index (nexts_in self.now.links.items) n }
    {
        self.links[n].next_sibling
    }
}

/// What is read of the nodes, with no links yet.
fn unlinked(room: Vec<Link>, edges: &[Edge], nodes: &[CostNode]) -> Result<Vec<Link>, NoMemory>
    requires count { length nodes.now ≡ length edges.now + 1 }
    ensures beside { IfOk result (λ links. AreBeside edges.now nodes.now links.items) }
    ensures none { IfOk result
        (λ links. firsts_in links.items ≡ replicate (length nodes.now) 0) }
{
    let mut links = room;
    links.clear();
    links.reserve(nodes.len())?;
    links.push_reserved(alone(nodes[0].cost, 0));
    'each_edge: for place in 0..edges.len() {
        links.push_reserved(alone(nodes[place + 1].cost, edges[place].text));
    }
    Ok(links)
}

/// What is read of a node that has no links.
fn alone(cost: u64, text: usize) -> Link
    ensures { result ≡ record { cost = cost; text = text; first_child = 0; next_sibling = 0 } }
{
    Link {
        cost,
        text,
        first_child: 0,
        next_sibling: 0,
    }
}

/// Links the nodes, none of which has links yet.
fn link_up(nodes: &[CostNode], links: &mut Vec<Link>)
    requires some { 0 < length nodes.now }
    requires lower { AreBehindParents nodes.now }
    requires none { firsts_in links.old.items ≡ replicate (length nodes.now) 0 }
    ensures costs { costs_in links.new.items ≡ costs_in links.old.items }
    ensures texts { texts_in links.new.items ≡ texts_in links.old.items }
    ensures children { AreLinks nodes.now (firsts_in links.new.items) (nexts_in links.new.items) }
{
    'each_node: for done in 1..nodes.len() {
        let n = nodes.len() - done;
        let parent = nodes[n].parent;
        links[n].next_sibling = links[parent].first_child;
        links[parent].first_child = n;
    }
}
