//! Where the lines of each line's own tree end.
ghost use Rattle.std.specs.Prelude.{◌≡◌, ◌+◌, ◌<◌, IfOk, length};
ghost use Rattle.ms_print.specs.Ends.{AreEnds, AreWhole, IsEnd};

use hp_num::NoMemory;
use massif_file::Tree;
use std::alloc::Global;

/// For each line of a tree the place behind the last line of its own tree.
pub(crate) fn ends_of(alloc: Global, tree: &Tree) -> Result<Vec<usize>, NoMemory>
    requires whole { AreWhole tree.now }
    ensures ends { IfOk result (λ ends. AreEnds tree.now 0 ends.items) }
{
    let mut ends = vec![in alloc; 0; tree.len()]?;
    'each_line: for place in (0..tree.len()).rev() {
        ends[place] = end_of(tree, &ends, place);
    }
    Ok(ends)
}

/// The end of the line at this place, where those of the lines behind it are known.
fn end_of(tree: &Tree, ends: &[usize], place: usize) -> usize
    requires whole { AreWhole tree.now }
    requires held { place < length tree.now }
    requires known { AreEnds tree.now (place + 1) ends.now }
    ensures { IsEnd tree.now place result }
{
    let mut next = place + 1;
    'each_child: for _ in 0..tree.at(place).children {
        next = ends[next];
    }
    next
}
