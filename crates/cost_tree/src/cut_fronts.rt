//! Lists of texts that are cut where the lines of trees need no more of them: behind a front that has no line.
//! What the lists cost is told for each tree.
ghost use Rattle.std.specs.Prelude.{◌≡◌, ◌^◌, ◌≤◌, length, sum, IfOk, OnOk};
ghost use Rattle.cost_tree.specs.Costs.{HasCosts, IsStated};
ghost use Rattle.cost_tree.specs.Texts.{AreTexts, lists_of};
ghost use Rattle.cost_tree.specs.CutState.{HasWholeLines};
ghost use Rattle.cost_tree.specs.Gathering.{Gathers, GathersSmall};

use crate::chains::Chains;
use crate::children::Gathered;
use crate::costing::Costing;
use crate::cut::Cut;
use crate::ends::ended_costs_into;
use crate::room::TreeRoom;
use crate::scale::Scale;
use crate::small_texts::{first_numbers, take_small};
use hp_num::NoMemory;
use intern_tables::Names;
use std::alloc::Global;
use std::marker::Model;
use std::mem;

/// Lists of texts, each of which is cut behind its first texts until a tree needs more.
///
/// Contracts see the whole lists, and those that are cut.
#[derive(Drop)]
pub struct CutFronts {
    pub(crate) names: Names,
    whole: Chains,
    /// The number of the first text of each list, and 0 where it has none.
    firsts: Vec<usize>,
    pub(crate) cut: Cut,
    room: TreeRoom,
}

impl Model for CutFronts {
    ghost use Rattle.cost_tree.specs.CutState.{CutState, IsCutting};
    ghost use Rattle.cost_tree.specs.Texts.{lists_of};

    ghost Value = { CutState };

    ghost view = { λ fronts.
        record {
          whole = lists_of fronts.names fronts.whole;
          cut = lists_of fronts.names fronts.cut.shape;
        } };

    ghost invariant = { λ fronts.
        IsCutting fronts.names fronts.whole fronts.firsts.items fronts.cut };
}

impl CutFronts {
    /// The lists of the texts that the numbers are those of, cut behind their first texts, or `NoMemory`. Each number must be one
    /// of a name.
    pub fn from_parts(alloc: Global, names: Names, lists: Chains) -> Result<CutFronts, NoMemory>
        requires texts { AreTexts names lists }
        ensures whole { IfOk result (λ cut. cut.whole ≡ lists_of names lists) }
    {
        let Ok(firsts) = first_numbers(alloc, &lists) else {
            drop(names);
            drop(lists);
            return Err(NoMemory);
        };
        let Ok(cut) = Cut::of(alloc, &lists) else {
            drop(names);
            drop(lists);
            drop(firsts);
            return Err(NoMemory);
        };
        Ok(CutFronts {
            names,
            whole: lists,
            firsts,
            cut,
            room: TreeRoom::new(alloc),
        })
    }

    /// Lists the costs in the room, without those of lists whose first text is too small for a line as a whole, and answers
    /// what is gathered so. In a tree to a depth of 0 nothing is.
    pub fn gather_small<F: Fn(u32) -> u64>(
        &self,
        costing: &Costing<F>,
        scale: Scale,
        depth: u32,
        room: &mut TreeRoom,
    ) -> Result<Gathered, NoMemory>
        requires as_many { costing.now.stacks ≡ length self.now.whole }
        requires stated { IsStated F.pre F.post costing.now }
        ensures gathered { IfOk result
            (Gathers (HasCosts F.pre F.post costing.now) depth scale self.now room.new) }
    {
        let TreeRoom { costs, firsts, .. } = room;
        costing.list_into(costs)?;
        self.take_small(scale, depth, costs, firsts)
    }

    /// Takes what lists cost out of the costs where their first text is too small for a line as a whole, and answers what is
    /// gathered so. `sums` is a buffer.
    fn take_small(
        &self,
        scale: Scale,
        depth: u32,
        costs: &mut Vec<u64>,
        sums: &mut Vec<u64>,
    ) -> Result<Gathered, NoMemory>
        requires as_many { length costs.old.items ≡ length self.now.whole }
        requires bound { sum costs.old.items ≤ 2 ^ 62 }
        ensures gathered { IfOk result
            (GathersSmall depth scale self.now.whole costs.old.items costs.new.items) }
    {
        if depth == 0 {
            return Ok(Gathered { places: 0, cost: 0 });
        }
        // A text's number is at most that of all names.
        let count = self.names.len() + 1;
        ended_costs_into(&self.firsts, costs, count, sums)?;
        Ok(take_small(&self.firsts, scale, sums, costs))
    }

    /// Makes the lists so long that a tree of them has the lines of the whole lists, with the costs of the room. On `NoMemory`
    /// they are cut somewhere.
    pub fn lengthen(
        &mut self,
        alloc: Global,
        scale: Scale,
        room: &mut TreeRoom,
    ) -> Result<(), NoMemory>
        requires as_many { length room.old.costs.items ≡ length self.old.whole }
        requires bound { sum room.old.costs.items ≤ 2 ^ 62 }
        ensures whole { self.new.whole ≡ self.old.whole }
        ensures costs { room.new.costs.items ≡ room.old.costs.items }
        ensures lines { OnOk result (HasWholeLines scale room.old.costs.items self.new) }
    {
        let TreeRoom { costs, cut, .. } = room;
        // Says that no two names are equal.
        let _count = self.names.len();
        self.cut.lengthen(alloc, &self.whole, costs, scale, cut)
    }

    /// Hands out the room for the next tree, and has none until it's given back by `put_room`.
    pub fn take_room(&mut self, alloc: Global) -> TreeRoom
        ensures same { self.new ≡ self.old }
    {
        mem::replace(&mut self.room, TreeRoom::new(alloc))
    }

    /// Keeps the room for the next tree.
    pub fn put_room(&mut self, room: TreeRoom)
        ensures same { self.new ≡ self.old }
    {
        self.room = room;
    }

    /// How many lists there are.
    pub fn len(&self) -> u32
        ensures whole { result ≡ length self.now.whole }
        ensures cut { result ≡ length self.now.cut }
    {
        self.whole.len()
    }
}
