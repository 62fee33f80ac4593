//! What takes the lines of a tree, one after another, as a vector that keeps them does.
//! Which lines a tree has is no part of it.
ghost use Rattle.std.specs.Prelude.{◌≡◌, [], ◌++◌, List, OnOk};
ghost use Rattle.cost_tree.specs.declared.line.CostLine.{CostLine};
ghost use Rattle.cost_tree.specs.TreeLines.{IsPlace, front_at};
ghost use Rattle.cost_tree.specs.TreeState.{TreeState};
ghost use Rattle.cost_tree.specs.AreLinesOf.{TakesLine};

use crate::line::CostLine;
use crate::tree::CostTree;
use hp_num::NoMemory;

/// What takes the lines of a tree.
pub trait CostLineTaker {
    /// By taking these lines of the tree, the first value has become the second.
    ghost takes: { TreeState → Self → List CostLine → Self → Type 0 };

    /// Takes the next line of the tree. On `NoMemory` the taker is of no use.
    fn take_line(&mut self, tree: &CostTree, line: CostLine) -> Result<(), NoMemory>
        requires root { front_at tree.now 0 ≡ [] }
        requires place { IsPlace tree.now line.place }
        ensures taken { OnOk result (TakesLine (takes tree.now) line self.old self.new) };
}

impl CostLineTaker for Vec<CostLine> {
    ghost takes = { λ _ first lines kept. kept.items ≡ first.items ++ lines };

    fn take_line(&mut self, _tree: &CostTree, line: CostLine) -> Result<(), NoMemory> {
        self.push(line)?;
        Ok(())
    }
}
