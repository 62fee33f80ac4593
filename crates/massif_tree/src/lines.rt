//! The lines of a snapshot's tree, as its file has them.
//! Which places have lines of their own, and in which order, is `cost_tree`'s part.
ghost use Rattle.std.specs.Prelude.{◌≡◌, ◌<◌, [], List, length, IfOk};
ghost use Rattle.cost_tree.specs.TreeLines.{front_at};
ghost use Rattle.massif_file.specs.TreeLine.{line_of};
ghost use Rattle.massif_tree.specs.LabelsIn.{AreLinesOfBoth, HaveSomeLines, line_in};
ghost use Rattle.massif_tree.specs.MassifTree.{label_of};

use crate::labels::{put_gathered_label, root_label};
use crate::options::TreeOptions;
use cost_tree::{CostLine, CostLineTaker, CostTree, Gathered, Place, Scale, take_both_lines};
use hp_num::NoMemory;
use massif_file::{Tree, TreeFields};
use std::alloc::Global;

/// The lines of the tree with what is gathered beside it, or `NoMemory`: a line for the root, and below a line the places whose
/// share of the total reaches the threshold, by descending bytes and then by their least stack, before one line for all others.
///
/// The tree must be one to `options.depth` texts. The total is in bytes.
pub(crate) fn tree_lines(
    alloc: Global,
    tree: &CostTree,
    gathered: Gathered,
    options: &TreeOptions,
    total: u64,
) -> Result<Tree, NoMemory>
    requires both { HaveSomeLines options.now total tree.now gathered }
    ensures lines { IfOk result (AreLinesOfBoth options.now total tree.now gathered) }
{
    let scale = Scale {
        total,
        threshold: options.threshold,
    };
    let mut lines = FileLines::new(alloc, options.threshold);
    take_both_lines(alloc, tree, scale, gathered, &mut lines)?;
    let FileLines { made, .. } = lines;
    Ok(made)
}

/// The lines of the file, made one by one.
#[derive(Drop)]
struct FileLines {
    threshold: u64,
    made: Tree,
    /// A buffer for a label that has to be made.
    label: Vec<u8>,
}

impl FileLines {
    /// None yet; places are gathered below this threshold, in hundredths of a percent.
    fn new(alloc: Global, threshold: u64) -> FileLines
        ensures threshold { result.threshold ≡ threshold }
        ensures none { result.made ≡ [] }
    {
        FileLines {
            threshold,
            made: Tree::new(alloc),
            label: Vec::new(alloc),
        }
    }
}

impl CostLineTaker for FileLines {
    ghost use Rattle.std.specs.Prelude.{◌≡◌, ◌++◌, map};
    ghost use Rattle.massif_tree.specs.LabelsIn.{line_in};

    ghost takes = { λ tree first lines now. (now.threshold ≡ first.threshold)
        × (now.made ≡ first.made ++ map (line_in first.threshold tree) lines) };

    fn take_line(&mut self, tree: &CostTree, line: CostLine) -> Result<(), NoMemory> {
        match line.place {
            Place::Node { node } => {
                let label = node_label(tree, node);
                self.made.push(labelled(line.children, line.cost, label))
            }
            Place::Gathered { places } => {
                put_gathered_label(self.threshold, places, &mut self.label)?;
                self.made
                    .push(labelled(line.children, line.cost, &self.label))
            }
        }
    }
}

/// The line with this label.
pub(crate) fn labelled(children: u32, cost: u64, label: &[u8]) -> TreeFields<'_>
    ensures { line_of result
        ≡ record { children = children; bytes = cost; label = label.now } }
{
    TreeFields {
        children,
        bytes: cost,
        label,
    }
}

/// The label of a node: that of the root, or the last text of its front.
fn node_label<'a>(tree: &'a CostTree, node: usize) -> &'a [u8]
    requires root { front_at tree.now 0 ≡ [] }
    requires held { node < length tree.now.nodes }
    ensures label { result.now ≡ label_of (front_at tree.now node) }
{
    if node == 0 {
        return root_label();
    }
    tree.text(node)
}
