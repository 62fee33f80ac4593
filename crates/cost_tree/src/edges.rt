//! The edges of a shape, each once, and the place of each.
//! Which fronts they lead to is no part of it.
ghost use Rattle.std.specs.Prelude.{◌≡◌, ◌≢◌, ◌⊎◌, ℕ, ◌-◌, ◌^◌, ◌<◌, ◌≤◌, [], true, false, length, Some, slice_get, IfNone, IfOk, IfSome, OnOk, OnErr};
ghost use Rattle.std.specs.HashMap.{get};
ghost use Rattle.cost_tree.specs.EdgeState.{KeepsOthers, edge_eq};
ghost use Rattle.cost_tree.specs.Shapes.{IsChild};

use crate::edge::Edge;
use hp_num::NoMemory;
use std::alloc::Global;
use std::collections::HashMap;
use std::marker::Model;

/// Different edges in the order in which they came: node n has the one at place n - 1.
///
/// Each begins at an earlier node, so the last node has none yet, and an edge that leads from a node to the next one is found at
/// its place, and has no entry in the index: so of a list that goes on by new nodes alone one edge is hashed, however long it is.
#[derive(Drop)]
pub(crate) struct Edges {
    edges: Vec<Edge>,
    places: HashMap<Edge, usize>,
}

impl Model for Edges {
    ghost use Rattle.std.specs.HashMap.{get};
    ghost use Rattle.cost_tree.specs.EdgeState.{ArePlaced, EdgeState, edge_eq};

    ghost Value = { EdgeState };

    ghost view = { λ edges. record { keys = edges.edges.items } };

    ghost invariant = { λ edges. ArePlaced edges.edges.items (get edge_eq edges.places) };
}

impl Edges {
    /// No edges. It takes no memory; that of the edges to come is taken from `alloc`.
    pub(crate) fn new(alloc: Global) -> Edges
        ensures empty { result.keys ≡ [] }
    {
        Edges {
            edges: Vec::new(alloc),
            places: HashMap::new(alloc),
        }
    }

    /// No edges, or `NoMemory`. The list has room for `count` of them, so that it isn't moved; the index has none, so an
    /// insertion may still take memory.
    pub(crate) fn with_capacity(alloc: Global, count: usize) -> Result<Edges, NoMemory>
        ensures empty { IfOk result (λ edges. edges.keys ≡ []) }
    {
        Ok(Edges {
            edges: Vec::with_capacity(alloc, count)?,
            places: HashMap::new(alloc),
        })
    }

    /// How many there are.
    pub(crate) fn len(&self) -> usize
        ensures count { result ≡ length self.now.keys }
        ensures small { result < 2 ^ 63 }
    {
        self.edges.len()
    }

    /// All of them, in order.
    pub(crate) fn list(&self) -> &[Edge]
        ensures edges { result.now ≡ self.now.keys }
    {
        &self.edges
    }

    /// All of them, in order; the index is let go.
    pub(crate) fn into_list(self) -> Vec<Edge>
        ensures edges { result.items ≡ self.keys }
    {
        let Edges { edges, places: _ } = self;
        edges
    }

    /// The place of the edge, which is put behind all others where it is new. Its parent must be a node. On `NoMemory` the
    /// edges are as before.
    pub(crate) fn insert(&mut self, edge: Edge) -> Result<usize, NoMemory>
        requires earlier { edge.parent ≤ length self.old.keys }
        ensures child { IfOk result (λ place. IsChild self.old.keys self.new.keys edge place) }
        ensures within { IfOk result (λ place. place < length self.new.keys) }
        ensures unchanged { OnErr result (self.new.keys ≡ self.old.keys) }
    {
        if let Some(place) = self.find(edge) {
            return Ok(place);
        }
        let place = self.edges.len();
        note(&mut self.places, edge, place)?;
        self.edges.push(edge)?;
        Ok(place)
    }

    /// The place of the edge, or `None` where it is new.
    fn find(&self, edge: Edge) -> Option<usize>
        requires earlier { edge.parent ≤ length self.now.keys }
        ensures found { IfSome result (λ place. slice_get self.now.keys place ≡ Some edge) }
        ensures none { IfNone result ((place : ℕ) → slice_get self.now.keys place ≢ Some edge) }
    {
        // The last node has no edges yet.
        if edge.parent == self.edges.len() {
            return None;
        }
        if is_at(&self.edges, edge.parent, edge) {
            return Some(edge.parent);
        }
        let place = *self.places.get(&edge)?;
        if !is_at(&self.edges, place, edge) {
            return None;
        }
        Some(place)
    }
}

/// The edge of the node, which must be held and not be node 0.
pub(crate) fn edge_of(edges: &[Edge], node: usize) -> Edge
    requires some { 0 < node }
    requires held { node ≤ length edges.now }
    ensures edge { slice_get edges.now (node - 1) ≡ Some result }
{
    edges[node - 1]
}

/// Whether the edge stands at the place.
fn is_at(edges: &[Edge], place: usize, edge: Edge) -> bool
    ensures there { result ≡ true → slice_get edges.now place ≡ Some edge }
    ensures elsewhere { result ≡ false → slice_get edges.now place ≢ Some edge }
{
    match edges.get(place) {
        Some(found) => *found == edge,
        None => false,
    }
}

/// Puts the place of an edge into the index, where the edge isn't found there without it.
fn note(places: &mut HashMap<Edge, usize>, edge: Edge, place: usize) -> Result<(), NoMemory>
    ensures noted { OnOk result
        ((edge.parent ≡ place) ⊎ (get edge_eq places.new edge ≡ Some place)) }
    ensures others { KeepsOthers edge (get edge_eq places.old) (get edge_eq places.new) }
{
    if edge.parent == place {
        return Ok(());
    }
    places.insert(edge, place)?;
    Ok(())
}
