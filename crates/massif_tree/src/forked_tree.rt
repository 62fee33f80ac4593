//! The lines of a snapshot's tree over lists of texts, each made of what `cost_tree` shows of it, with no tree beside it.
//! Which places have lines of their own, and in which order, is `cost_tree`'s part.
ghost use Rattle.std.specs.Prelude.{◌≡◌, [], ◌++◌, length, IfOk, OnOk};
ghost use Rattle.cost_tree.specs.Costs.{HasCosts, IsStated};
ghost use Rattle.massif_tree.specs.KnownLabels.{AddsLine, HoldTexts, IsLabelNumber, KeepTexts};
ghost use Rattle.massif_tree.specs.MassifTree.{AreLinesOfStated};

use crate::labels::{put_gathered_label, root_label};
use crate::lines::labelled;
use crate::options::TreeOptions;
use cost_tree::{
    Costing, ForkedFronts, FrontLineTaker, Scale, ShownLine, ShownPlace, take_front_lines,
};
use hp_num::NoMemory;
use intern_tables::Names;
use massif_file::{LabelledTree, Tree};
use std::alloc::Global;

/// The lines of the tree of these lists with these costs, or `NoMemory`, as `tree_lines` says. The total is in bytes.
pub fn forked_lines<F: Fn(u32) -> u64>(
    alloc: Global,
    fronts: &ForkedFronts,
    costing: &Costing<F>,
    options: &TreeOptions,
    total: u64,
) -> Result<Tree, NoMemory>
    requires as_many { costing.now.stacks ≡ length fronts.now }
    requires stated { IsStated F.pre F.post costing.now }
    ensures lines { IfOk result
        (AreLinesOfStated (HasCosts F.pre F.post costing.now) options.now total fronts.now) }
{
    let scale = Scale {
        total,
        threshold: options.threshold,
    };
    let taker = ForkedLines {
        threshold: options.threshold,
        made: LabelledTree::new(alloc),
        root: 0,
        label: Vec::new(alloc),
    };
    let taken = take_front_lines(alloc, fronts, costing, scale, options.depth, taker)?;
    let ForkedLines { made, .. } = taken;
    Ok(made.into_tree())
}

/// The lines of the file, made one by one of those of fronts. A text is a label once, by its own number.
#[derive(Drop)]
struct ForkedLines {
    threshold: u64,
    made: LabelledTree,
    /// The number of the root's label, which is above those of the texts.
    root: usize,
    /// A buffer for a label that has to be made.
    label: Vec<u8>,
}

impl FrontLineTaker for ForkedLines {
    ghost use Rattle.std.specs.Prelude.{◌≡◌, ◌++◌, [], map};
    ghost use Rattle.massif_tree.specs.KnownLabels.{HoldTexts};
    ghost use Rattle.massif_tree.specs.MassifTree.{massif_line};

    ghost takes = { λ texts first lines now. first.made.labels ≡ []
        → (now.threshold ≡ first.threshold) × HoldTexts texts now.root now.made.labels
        × (now.made.lines ≡ first.made.lines ++ map (massif_line first.threshold) lines) };

    fn take_texts(&mut self, names: &Names) -> Result<(), NoMemory> {
        self.made.add_label(b"")?;
        add_names(&mut self.made, names)?;
        self.root = self.made.label_count();
        self.made.add_label(root_label())?;
        Ok(())
    }

    #[inline(always)]
    fn take_line(&mut self, line: ShownLine) -> Result<(), NoMemory> {
        match line.shown {
            ShownPlace::Front { number, .. } => {
                let label = label_number(self.root, line.level, number);
                push_known(&mut self.made, line.children, line.cost, label)?;
                Ok(())
            }
            ShownPlace::Gathered { places } => {
                put_gathered_label(self.threshold, places, &mut self.label)?;
                let gathered = labelled(line.children, line.cost, &self.label);
                self.made.push_line(gathered)?;
                Ok(())
            }
        }
    }
}

/// Adds the names as labels, in the order of their numbers.
fn add_names(made: &mut LabelledTree, names: &Names) -> Result<(), NoMemory>
    ensures labels { OnOk result (made.new.labels ≡ made.old.labels ++ names.now) }
    ensures lines { OnOk result (made.new.lines ≡ made.old.lines) }
{
    // Says that the numbers fit.
    let _count = names.len();
    let mut place = 0;
    'each_name: while let Some(name) = names.name(place + 1) {
        made.add_label(name)?;
        place += 1;
    }
    Ok(())
}

/// The number of the label of a front of so many texts, of which the last one has this number: that of the root's label where
/// there are none, and that of the empty label where no text has the number.
#[inline(always)]
fn label_number(root: usize, level: usize, number: usize) -> usize
    ensures label { IsLabelNumber root level number result }
{
    if level == 0 {
        return root;
    }
    if number < root {
        return number;
    }
    0
}

/// Appends a line with the label of this number, or with an empty one where there is none.
#[inline(always)]
fn push_known(
    made: &mut LabelledTree,
    children: u32,
    bytes: u64,
    label: usize,
) -> Result<(), NoMemory>
    ensures held { OnOk result (KeepTexts made.old.labels made.new.labels) }
    ensures line { OnOk result (AddsLine children bytes label made.old made.new) }
{
    if label < made.label_count() {
        return made.push(children, bytes, label);
    }
    made.push_line(labelled(children, bytes, b""))
}
