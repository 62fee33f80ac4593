//! What takes the lines of fronts, one after another, each with what it shows.
//! Which lines there are is no part of it, and no more is whether a tree has a node for each.
ghost use Rattle.std.specs.Prelude.{ℕ, [], List, OnOk};
ghost use Rattle.cost_tree.specs.CostLines.{FrontLine};
ghost use Rattle.cost_tree.specs.IsShownAs.{TakesShown};

use crate::shown_line::ShownLine;
use hp_num::NoMemory;
use intern_tables::Names;

/// What takes the lines of fronts.
pub trait FrontLineTaker {
    /// By taking these lines, the numbers in which are those of these texts, the first value has become the second.
    ghost takes: { List (List ℕ) → Self → List FrontLine → Self → Type 0 };

    /// Takes the texts, before all lines. On `NoMemory` the taker is of no use.
    fn take_texts(&mut self, names: &Names) -> Result<(), NoMemory>
        ensures taken { OnOk result (takes names.now self.old [] self.new) };

    /// Takes the next line. On `NoMemory` the taker is of no use.
    fn take_line(&mut self, line: ShownLine) -> Result<(), NoMemory>
        ensures taken { OnOk result (TakesShown takes line.entry self.old self.new) };
}
