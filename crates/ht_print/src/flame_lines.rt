//! The lines of flame stacks, one after another: all memory that they need is taken before the first one.
//! Which nodes have a line, and in which order, is found in `flame_nodes`.
ghost use Rattle.std.specs.Prelude.{◌≡◌, ◌+◌, ◌^◌, ◌<◌, ◌≤◌, List, Ok, true, false, length, sum, IfOk, IsOk, OnOk, vec_capacity, vec_len, [], OnErr};
ghost use Rattle.cost_tree.specs.Costed.{Costed};
ghost use Rattle.cost_tree.specs.IsTreeOf.{IsTreeOf};
ghost use Rattle.ht_print.specs.Appends.{Appends, HasRoomFor};
ghost use Rattle.ht_print.specs.FlameLines.{HasGiven, figure_bytes};
ghost use Rattle.ht_print.specs.FlameText.{figure_line, flame_of_lists};
ghost use Rattle.ht_print.specs.FlameWalk.{AreFlamesOf};
ghost use Rattle.stack_table.specs.Stack.{most_frames};

use crate::flame_nodes::{line_nodes, longest_line};
use crate::front_text::FrontText;
use cost_tree::{CallerLists, CostTree};
use hp_num::{NoMemory, put_bytes, put_dec};
use stack_table::MOST_FRAMES;
use std::alloc::Global;
use std::marker::Model;

/// The lines that are still to be given, with the memory that they need.
#[derive(Drop)]
pub struct FlameLines {
    tree: CostTree<'static>,
    /// The nodes that have a line, in the order of the lines.
    nodes: Vec<usize>,
    /// How many lines were given.
    given: usize,
    front: FrontText,
    /// No line has more bytes.
    longest: usize,
}

impl Model for FlameLines {
    ghost use Rattle.ht_print.specs.FlameLines.{AreLines, FlameState, lines_behind};

    ghost Value = { FlameState };

    ghost view = { λ lines. lines_behind lines.tree lines.nodes.items lines.given lines.longest };

    ghost invariant = { λ lines. AreLines lines.tree lines.nodes lines.front lines.longest };
}

impl FlameLines {
    /// The lines of lists of texts: one for each list whose costs have a sum other than 0. `NoMemory` where memory is wanting.
    ///
    /// There must be a cost for each list, and they sum to at most 2^62.
    pub fn of_lists(
        alloc: Global,
        lists: CallerLists,
        costs: Vec<u64>,
    ) -> Result<FlameLines, NoMemory>
        requires as_many { length costs.items ≡ length lists }
        requires bound { sum costs.items ≤ 2 ^ 62 }
        ensures { IfOk result (λ lines. lines.rest ≡ flame_of_lists lists costs.items) }
    {
        let tree = CostTree::of_lists(alloc, lists, &costs, MOST_FRAMES)?;
        drop(costs);
        FlameLines::of_tree(alloc, tree)
    }

    /// The lines of all nodes of a tree.
    fn of_tree(alloc: Global, tree: CostTree<'static>) -> Result<FlameLines, NoMemory>
        requires { (stacks : List Costed) × IsTreeOf tree stacks most_frames }
        ensures { IfOk result (λ lines. AreFlamesOf tree.entry lines.rest) }
    {
        let nodes = line_nodes(alloc, &tree)?;
        let longest = longest_line(alloc, &tree)?;
        let front = FrontText::new(alloc, longest)?;
        Ok(FlameLines {
            tree,
            nodes,
            given: 0,
            front,
            longest,
        })
    }

    /// How many bytes a line has at most.
    pub fn longest_line(&self) -> usize
        ensures { result ≡ self.now.longest }
    {
        self.longest
    }

    /// Appends the next line, and answers whether there was one. It can't fail where `out` has room for the longest line. On
    /// `NoMemory` a front of the line may stand at the end of `out`.
    pub fn put_next(&mut self, out: &mut Vec<u8>) -> Result<bool, NoMemory>
        ensures given { OnOk result
            (HasGiven self.old.rest self.new.rest out.old.items out.new.items) }
        ensures fewer { result ≡ Ok true → self.new.left < self.old.left }
        ensures all { result ≡ Ok false → self.new.rest ≡ [] }
        ensures longest { self.new.longest ≡ self.old.longest }
        ensures capacity { vec_capacity out.old ≤ vec_capacity out.new }
        ensures room { vec_len out.old + self.old.longest ≤ vec_capacity out.old → IsOk result }
    {
        if self.given >= self.nodes.len() {
            return Ok(false);
        }
        let n = self.nodes[self.given];
        self.front.go_to(&self.tree, n);
        put_line(self.front.path(), self.tree.node(n).own, out)?;
        self.given += 1;
        Ok(true)
    }

    /// Appends all lines that are left. On `NoMemory`, `out` holds what it held before.
    pub(crate) fn put_all(&mut self, out: &mut Vec<u8>) -> Result<(), NoMemory>
        ensures appended { Appends self.old.rest out.old out.new result }
        ensures unchanged { OnErr result (out.new.items ≡ out.old.items) }
    {
        let start = out.len();
        'each_line: loop {
            if out.reserve(self.longest_line()).is_err() {
                out.truncate(start);
                return Err(NoMemory);
            }
            match self.put_next(out) {
                Ok(true) => {}
                Ok(false) => return Ok(()),
                Err(NoMemory) => unreachable!(),
            }
        }
    }
}

/// Appends a line: the texts of a front, and what it costs.
fn put_line(path: &[u8], own: u64, out: &mut Vec<u8>) -> Result<(), NoMemory>
    ensures appended { Appends (figure_line path.now own) out.old out.new result }
    ensures capacity { vec_capacity out.old ≤ vec_capacity out.new }
    ensures room { HasRoomFor (length path.now + figure_bytes) out.old → IsOk result }
{
    put_bytes(out, path)?;
    put_bytes(out, b" ")?;
    put_dec(out, own)?;
    put_bytes(out, b"\n")
}
