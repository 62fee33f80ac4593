//! The frames that allocation functions leave of a stack, and which stacks are ignored.
//! The lists of names are tests of the callers (`FrameTest`), and what a stack costs is no part of it.
ghost use Rattle.std.specs.Prelude.{◌≤◌, All, length, IfOk};
ghost use Rattle.cost_tree.specs.FrameTexts.{says};
ghost use Rattle.ht_trace.specs.IsFrame.{IsFrame};
ghost use Rattle.massif_tree.specs.FunctionLists.{CountsListed, IsIgnoredBy, TellsListed};

use crate::trimmed_fronts::own_frames_into;
use cost_tree::FrameTest;
use hp_num::NoMemory;
use ht_trace::{FrameAt, Tables};

/// Whether the stack, which must be below `tables.stacks()`, is ignored: the innermost of its frames that stands behind
/// its front of allocation functions has a function that is to be ignored. `NoMemory` comes where memory is wanting for
/// the stack's frames, or for those of its innermost node, which replace `frames`.
pub fn is_ignored<A: Fn(&[u8]) -> bool, I: Fn(&[u8]) -> bool>(
    tables: &Tables,
    stack: u32,
    alloc_fns: &FrameTest<A>,
    ignore_fns: &FrameTest<I>,
    frames: &mut Vec<FrameAt>,
) -> Result<bool, NoMemory>
    requires held { stack ≤ length tables.now.nodes }
    requires alloc_callable { A.IsAlwaysCallable alloc_fns.now.test }
    requires ignore_callable { I.IsAlwaysCallable ignore_fns.now.test }
    ensures ignored { IfOk result
        (IsIgnoredBy A.Fn I.Fn alloc_fns.now ignore_fns.now tables.now stack) }
{
    own_frames_into(tables, stack, frames)?;
    let front = listed_front(tables, frames, alloc_fns);
    if let Some(at) = frames.get(front) {
        return Ok(is_listed(tables, at, ignore_fns));
    }
    // All of its own frames are allocation functions', so that those of the stacks that it is called from tell.
    tables.frames_into(stack, frames)?;
    let front = listed_front(tables, frames, alloc_fns);
    match frames.get(front) {
        Some(at) => Ok(is_listed(tables, at, ignore_fns)),
        None => Ok(false),
    }
}

/// How many frames the longest front has whose functions are all in the list that the test stands for.
pub(crate) fn listed_front<F: Fn(&[u8]) -> bool>(
    tables: &Tables,
    frames: &[FrameAt],
    names: &FrameTest<F>,
) -> usize
    requires frames { All (λ at. IsFrame tables.now at) frames.now }
    requires callable { F.IsAlwaysCallable names.now.test }
    ensures front { CountsListed (says F.Fn names.now) tables.now frames.now result }
    ensures within { result ≤ length frames.now }
{
    'each_frame: for (place, at) in frames.iter().enumerate() {
        if !is_listed(tables, at, names) {
            return place;
        }
    }
    frames.len()
}

/// Whether the frame has a function of the list.
pub(crate) fn is_listed<F: Fn(&[u8]) -> bool>(
    tables: &Tables,
    at: &FrameAt,
    names: &FrameTest<F>,
) -> bool
    requires frame { IsFrame tables.now at.now }
    requires callable { F.IsAlwaysCallable names.now.test }
    ensures listed { TellsListed (says F.Fn names.now) tables.now at.now result }
{
    match tables.frame_function(at) {
        Some(function) => names.of(function),
        None => false,
    }
}
