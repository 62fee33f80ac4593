//! The lines of a tree. How they are spelled, and which of them make a tree, are no part of it.
ghost use Rattle.std.specs.Prelude.{◌≡◌, ◌<◌, [], ◌∷◌, ◌++◌, length, slice_get, Some, IfOk, OnOk, OnErr};
ghost use Rattle.massif_file.specs.TreeLine.{line_of};

use crate::labelled_tree::LabelledTree;
use crate::profile::TreeFields;
use hp_num::NoMemory;
use std::alloc::Global;
use std::marker::Model;

/// The lines of a tree, in the order of the file. Contracts see it as the list of them.
#[derive(Drop)]
pub struct Tree {
    pub(crate) lines: LabelledTree,
}

impl Model for Tree {
    ghost use Rattle.std.specs.Prelude.{List};
    ghost use Rattle.massif_file.specs.TreeLine.{TreeLine};

    ghost Value = { List TreeLine };

    ghost view = { λ tree. tree.lines.lines };
}

impl Tree {
    /// No lines. It takes no memory; that of the lines to come is taken from `alloc`.
    pub fn new(alloc: Global) -> Tree
        ensures empty { result ≡ [] }
    {
        Tree {
            lines: LabelledTree::new(alloc),
        }
    }

    /// Appends one line. On `NoMemory` the lines are as before.
    pub fn push(&mut self, line: TreeFields) -> Result<(), NoMemory>
        ensures appended { OnOk result (self.new ≡ self.old ++ line_of line.entry ∷ []) }
        ensures unchanged { OnErr result (self.new ≡ self.old) }
    {
        self.lines.push_line(line)
    }

    /// The same lines, or `NoMemory`.
    pub fn copy(&self, alloc: Global) -> Result<Tree, NoMemory>
        ensures lines { IfOk result (λ copy. copy ≡ self.now) }
    {
        let lines = self.lines.copy(alloc)?;
        Ok(Tree { lines })
    }

    /// How many lines there are.
    pub fn len(&self) -> usize
        ensures length { result ≡ length self.now }
    {
        self.lines.len()
    }

    /// The line at place `i`, from 0, which is below the number of lines.
    pub fn at(&self, i: usize) -> TreeFields<'_>
        requires { i < length self.now }
        ensures item { slice_get self.now i ≡ Some (line_of result) }
    {
        self.lines.at(i)
    }
}
