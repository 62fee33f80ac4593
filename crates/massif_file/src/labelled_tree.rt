//! The lines of a tree, with labels that are known by their numbers.
//! How the lines are spelled, and which of them make a tree, are no part of it.
ghost use Rattle.std.specs.Prelude.{◌≡◌, ◌<◌, [], ◌∷◌, ◌++◌, length, slice_get, Some, IfOk, OnOk, OnErr};
ghost use Rattle.massif_file.specs.LabelledLines.{line_with};
ghost use Rattle.massif_file.specs.TreeLine.{line_of};

use crate::labels::Labels;
use crate::profile::TreeFields;
use crate::tree::Tree;
use hp_num::NoMemory;
use std::alloc::Global;
use std::marker::Model;

/// A line as it is kept: its numbers, and which of the labels it has.
#[derive(Clone, Copy)]
pub struct LineEntry {
    children: u32,
    bytes: u64,
    label: usize,
}

/// The lines of a tree whose labels are known before the lines are. A label is added once, and lines name it by its number:
/// so a line takes no text of its own, and none is compared. Numbers begin at 0, in the order in which labels came.
///
/// Contracts see the list of the labels, and that of the lines.
#[derive(Drop)]
pub struct LabelledTree {
    entries: Vec<LineEntry>,
    labels: Labels,
}

impl Model for LabelledTree {
    ghost use Rattle.massif_file.specs.LabelledLines.{LabelledLines};
    ghost use Rattle.massif_file.specs.LineEntries.{HaveLabels, labelled_lines};

    ghost Value = { LabelledLines };

    ghost view = { λ tree. labelled_lines tree.labels tree.entries.items };

    ghost invariant = { λ tree. HaveLabels tree.labels tree.entries.items };
}

impl LabelledTree {
    /// No labels and no lines. It takes no memory; that of those to come is taken from `alloc`.
    pub fn new(alloc: Global) -> LabelledTree
        ensures no_labels { result.labels ≡ [] }
        ensures no_lines { result.lines ≡ [] }
    {
        LabelledTree {
            entries: Vec::new(alloc),
            labels: Labels::new(alloc),
        }
    }

    /// Adds a label, whose number is how many there were. On `NoMemory` all is as before.
    pub fn add_label(&mut self, label: &[u8]) -> Result<(), NoMemory>
        ensures labels { OnOk result (self.new.labels ≡ self.old.labels ++ label.now ∷ []) }
        ensures lines { OnOk result (self.new.lines ≡ self.old.lines) }
        ensures unchanged { OnErr result (self.new ≡ self.old) }
    {
        self.labels.push(label)
    }

    /// How many labels there are.
    pub fn label_count(&self) -> usize
        ensures count { result ≡ length self.now.labels }
    {
        self.labels.len()
    }

    /// Appends one line, with the label of this number. On `NoMemory` all is as before.
    #[inline(always)]
    pub fn push(&mut self, children: u32, bytes: u64, label: usize) -> Result<(), NoMemory>
        requires held { label < length self.old.labels }
        ensures labels { OnOk result (self.new.labels ≡ self.old.labels) }
        ensures lines { OnOk result
            (self.new.lines ≡ self.old.lines ++ line_with self.old children bytes label ∷ []) }
        ensures unchanged { OnErr result (self.new ≡ self.old) }
    {
        self.entries.push(LineEntry {
            children,
            bytes,
            label,
        })?;
        Ok(())
    }

    /// Adds the label of this line, and appends the line. On `NoMemory` the lines are as before; the label may be there.
    pub fn push_line(&mut self, line: TreeFields) -> Result<(), NoMemory>
        ensures labels { OnOk result
            (self.new.labels ≡ self.old.labels ++ line.entry.label.now ∷ []) }
        ensures lines { OnOk result
            (self.new.lines ≡ self.old.lines ++ line_of line.entry ∷ []) }
        ensures unchanged { OnErr result (self.new.lines ≡ self.old.lines) }
    {
        let label = self.label_count();
        self.add_label(line.label)?;
        self.push(line.children, line.bytes, label)
    }

    /// The lines alone.
    pub fn into_tree(self) -> Tree
        ensures lines { result ≡ self.lines }
    {
        Tree { lines: self }
    }

    /// The same labels and lines, or `NoMemory`.
    pub(crate) fn copy(&self, alloc: Global) -> Result<LabelledTree, NoMemory>
        ensures same { IfOk result (λ copy. copy ≡ self.now) }
    {
        let entries = Vec::from_slice(alloc, &self.entries)?;
        let labels = self.labels.copy(alloc)?;
        Ok(LabelledTree { entries, labels })
    }

    /// How many lines there are.
    pub(crate) fn len(&self) -> usize
        ensures length { result ≡ length self.now.lines }
    {
        self.entries.len()
    }

    /// The line at place `i`, from 0, which is below the number of lines.
    pub(crate) fn at(&self, i: usize) -> TreeFields<'_>
        requires { i < length self.now.lines }
        ensures item { slice_get self.now.lines i ≡ Some (line_of result) }
    {
        let entry = self.entries[i];
        TreeFields {
            children: entry.children,
            bytes: entry.bytes,
            label: self.labels.at(entry.label),
        }
    }
}
