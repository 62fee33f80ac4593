//! Lists of numbers that share their fronts: a front is kept once, as a node, and a list as the node where it ends.
//! What the numbers stand for, and what the lists cost, are no part of it.
ghost use Rattle.std.specs.Prelude.{◌≡◌, ◌≢◌, ℕ, ◌+◌, ◌-◌, ◌^◌, ◌<◌, ◌≤◌, List, [], ◌∷◌, ◌++◌, length, map, sum, IfOk, OnOk, OnErr};
ghost use Rattle.cost_tree.specs.CutShapes.{equal_cost};
ghost use Rattle.cost_tree.specs.Shapes.{IsNodeBy};
ghost use Rattle.cost_tree.specs.GrowingLists.{HasBegun, LastGets};

use crate::edge::Edge;
use crate::edges::Edges;
use crate::ends::{EndedCosts, costs_at_into, ended_costs_into};
use hp_num::NoMemory;
use std::alloc::Global;
use std::marker::Model;

/// Lists of numbers, numbered from 0. Their memory goes by their different fronts.
///
/// Contracts see the list of the lists.
#[derive(Drop)]
pub struct Shape {
    pub(crate) edges: Edges,
    pub(crate) ends: Vec<usize>,
}

impl Model for Shape {
    ghost use Rattle.std.specs.Prelude.{ℕ, List};
    ghost use Rattle.cost_tree.specs.Shapes.{lists_in, IsShape};

    ghost Value = { List (List ℕ) };

    ghost view = { λ shape. lists_in shape.edges.keys shape.ends.items };

    ghost invariant = { λ shape. IsShape shape.edges.keys shape.ends.items };
}

impl Shape {
    /// No lists. It takes no memory; that of the lists to come is taken from `alloc`.
    pub fn new(alloc: Global) -> Shape
        ensures empty { result ≡ [] }
    {
        Shape {
            edges: Edges::new(alloc),
            ends: Vec::new(alloc),
        }
    }

    /// No lists, or `NoMemory`, with room for the ends of `count` lists and for `count` edges; the index of the edges has
    /// none.
    pub(crate) fn with_capacity(alloc: Global, count: usize) -> Result<Shape, NoMemory>
        ensures empty { IfOk result (λ shape. shape ≡ []) }
    {
        Ok(Shape {
            edges: Edges::with_capacity(alloc, count)?,
            ends: Vec::with_capacity(alloc, count)?,
        })
    }

    /// Appends an empty list and answers its number. There must be fewer than 2^32 - 1 lists. On `NoMemory` the lists
    /// are as before.
    pub fn begin(&mut self) -> Result<u32, NoMemory>
        requires few { length self.old < 2 ^ 32 - 1 }
        ensures appended { OnOk result (self.new ≡ self.old ++ [] ∷ []) }
        ensures number { IfOk result (λ n. n ≡ length self.old) }
        ensures unchanged { OnErr result (self.new ≡ self.old) }
    {
        let number = self.ends.len() as u32;
        self.ends.push(0)?;
        Ok(number)
    }

    /// Appends the list of the caller, which must be held; for 0 an empty one. There must be fewer than 2^32 - 1 lists.
    pub(crate) fn begin_with(&mut self, caller: u32) -> Result<(), NoMemory>
        requires held { caller ≢ 0 → caller < length self.old }
        requires few { length self.old < 2 ^ 32 - 1 }
        ensures appended { OnOk result (HasBegun self.old caller self.new) }
    {
        if caller == 0 {
            self.begin()?;
            return Ok(());
        }
        let end = self.ends[caller as usize];
        self.ends.push(end)?;
        Ok(())
    }

    /// Appends the number to the last list, of which there must be one. On `NoMemory` the lists are as before.
    pub fn push(&mut self, number: usize) -> Result<(), NoMemory>
        requires begun { 0 < length self.old }
        ensures appended { OnOk result (LastGets self.old number self.new) }
        ensures count { length self.new ≡ length self.old }
        ensures unchanged { OnErr result (self.new ≡ self.old) }
    {
        let last = self.ends.len() - 1;
        let child = child_of(&mut self.edges, self.ends[last], number)?;
        self.ends[last] = child;
        Ok(())
    }

    /// Replaces `ended` by what the lists cost: for each list what those cost together that are equal to it.
    pub(crate) fn ended_costs_into(
        &self,
        costs: &[u64],
        ended: &mut EndedCosts,
    ) -> Result<(), NoMemory>
        requires as_many { length costs.now ≡ length self.now }
        requires bound { sum costs.now ≤ 2 ^ 62 }
        ensures shared { OnOk result
            (ended.new.of_lists.items ≡ map (equal_cost self.now costs.now) self.now) }
    {
        let nodes = self.edges.len() + 1;
        ended_costs_into(&self.ends, costs, nodes, &mut ended.at_nodes)?;
        costs_at_into(&self.ends, &ended.at_nodes, &mut ended.of_lists)
    }

    /// How many lists there are.
    pub fn len(&self) -> u32
        ensures count { result ≡ length self.now }
    {
        self.ends.len() as u32
    }
}

/// The node that goes on from a node by the number, which is made where there is none yet. On `NoMemory` there is none
/// more.
fn child_of(edges: &mut Edges, parent: usize, number: usize) -> Result<usize, NoMemory>
    requires held { parent ≤ length edges.old.keys }
    ensures child { IfOk result (IsNodeBy edges.old.keys edges.new.keys parent number) }
    ensures unchanged { OnErr result (edges.new.keys ≡ edges.old.keys) }
{
    let place = edges.insert(Edge {
        parent,
        text: number,
    })?;
    // Says that the next number is one.
    let _count = edges.len();
    Ok(place + 1)
}
