//! What the children of each line of a tree leave of its bytes.
ghost use Rattle.std.specs.Prelude.{◌≡◌, ◌<◌, ◌-◌, IfOk, OnOk, drop, reverse, sum, take};
ghost use Rattle.convert.specs.ConvertFault.{is_too_large};
ghost use Rattle.convert.specs.Levels.{TakesRoots, kept, left_in};

use hp_num::NoMemory;
use massif_file::{Tree, TreeFields};
use std::alloc::Global;

/// The greatest sum of numbers that is folded.
const MOST: u128 = 1 << 62;

/// For each line its bytes without those of its children, or 0 where they have more.
pub(crate) fn left_bytes(alloc: Global, tree: &Tree) -> Result<Vec<u64>, NoMemory>
    ensures left { IfOk result (λ left. left.items ≡ left_in tree.now) }
{
    let mut left = vec![in alloc; 0; tree.len()]?;
    // The bytes of the roots of the trees that begin at a line behind, the first one last.
    let mut roots = Vec::new(alloc);
    'each_line: for place in (0..tree.len()).rev() {
        left[place] = take_line(tree.at(place), &mut roots)?;
    }
    Ok(left)
}

/// What the line's children leave of its bytes. They are the last roots; the line takes their place.
fn take_line(line: TreeFields, roots: &mut Vec<u64>) -> Result<u64, NoMemory>
    ensures left { IfOk result
        (λ left. left ≡ kept line.entry.bytes line.entry.children roots.old.items) }
    ensures roots { OnOk result
        (TakesRoots line.entry.bytes line.entry.children roots.old roots.new) }
{
    let mut left = line.bytes;
    'each_child: for _ in 0..line.children {
        left = take_root(left, roots);
    }
    roots.push(line.bytes)?;
    Ok(left)
}

/// What the next root, if there is one, leaves.
fn take_root(left: u64, roots: &mut Vec<u64>) -> u64
    ensures left { result ≡ left - sum (take 1 (reverse roots.old.items)) }
    ensures roots { reverse roots.new.items ≡ drop 1 (reverse roots.old.items) }
{
    match roots.pop() {
        Some(bytes) => left.saturating_sub(bytes),
        None => left,
    }
}

/// Whether the numbers sum to more than 2^62. It takes no memory.
pub(crate) fn sum_is_too_large(numbers: &[u64]) -> bool
    ensures { result ≡ is_too_large (sum numbers.now) }
{
    let mut total: u128 = 0;
    'each_number: for number in numbers {
        total += u128::from(*number);
    }
    total > MOST
}
