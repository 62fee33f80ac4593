//! The trimmed lists of a trace's stacks, as far as a tree needs them: they are made once, and each tree is built of them. A
//! stack's list is made of the texts of its own node, and goes on with that of the stack that it is called from, so texts are made
//! once a node. What a stack costs, and what a tree says, are no part of it.
ghost use Rattle.std.specs.Prelude.{◌≡◌, ◌≢◌, ◌==◌, ◌+◌, ◌-◌, ◌^◌, ◌<◌, ◌≤◌, if◌then◌else◌, All, None, Some, false, true, length, IfOk, IfSome, OnOk};
ghost use Rattle.cost_tree.specs.FrameTexts.{says};
ghost use Rattle.ht_trace.specs.IsFrame.{IsFrame};
ghost use Rattle.massif_tree.specs.FirstLists.{KeepsFirstLists};
ghost use Rattle.massif_tree.specs.Whole.{AppendsFrom, AreSaidWhole, HasAdded, HasOneMore, HasOwnFrames, IsFlagOf, IsNextStack, IsSaidWhole};

use crate::function_lists::{is_listed, listed_front};
use crate::options::TreeOptions;
use cost_tree::FrameTest;
use hp_num::NoMemory;
use ht_trace::{FrameAt, Style, Tables};
use stack_trees::{CallChains, ListForm};
use std::alloc::Global;

/// What is kept while lists are appended.
#[derive(Drop)]
struct Buffers {
    frames: Vec<FrameAt>,
    /// Of the stacks whose lists were appended last, whether nothing is trimmed of them: so their callees needn't look again.
    whole: Vec<bool>,
}

/// Appends the lists of the stacks of the tables that have none yet: the first texts of each as it is trimmed, one more
/// than a tree with these options is deep, which says that a stack goes on. After `NoMemory` the lists are unfit for use.
pub fn add_trimmed<A: Fn(&[u8]) -> bool>(
    alloc: Global,
    tables: &Tables,
    alloc_fns: &FrameTest<A>,
    options: &TreeOptions,
    fronts: &mut CallChains,
) -> Result<(), NoMemory>
    requires held { length fronts.old ≤ length tables.now.nodes + 1 }
    requires callable { A.IsAlwaysCallable alloc_fns.now.test }
    ensures lists { OnOk result
        (KeepsFirstLists (says A.Fn alloc_fns.now) tables.now options.now fronts.old fronts.new) }
    ensures count { OnOk result (length fronts.new ≡ length tables.now.nodes + 1) }
{
    let most = options.depth as usize + 1;
    let mut buffers = Buffers {
        frames: Vec::new(alloc),
        whole: Vec::new(alloc),
    };
    'each_stack: for stack in fronts.len()..tables.stacks() {
        let is_whole = add_stack(tables, stack, alloc_fns, most, fronts, &mut buffers)?;
        buffers.whole.push(is_whole)?;
    }
    Ok(())
}

/// Appends the list of the stack, which is the next one, and answers whether nothing is trimmed of it, as far as that is known.
/// Where the list of the stack that it is called from lacks frames, as it begins with an allocation function's, this one goes on
/// with none, and has the texts of all frames.
fn add_stack<A: Fn(&[u8]) -> bool>(
    tables: &Tables,
    stack: u32,
    alloc_fns: &FrameTest<A>,
    most: usize,
    fronts: &mut CallChains,
    buffers: &mut Buffers,
) -> Result<bool, NoMemory>
    requires next { IsNextStack tables.now stack fronts.old }
    requires callable { A.IsAlwaysCallable alloc_fns.now.test }
    requires known { AreSaidWhole (says A.Fn alloc_fns.now) tables.now stack
        buffers.old.whole.items }
    ensures added { OnOk result
        (HasAdded (says A.Fn alloc_fns.now) tables.now most stack fronts.old fronts.new) }
    ensures whole { IfOk result
        (λ is. is ≡ true → IsSaidWhole (says A.Fn alloc_fns.now) tables.now stack) }
    ensures kept { buffers.new.whole.items ≡ buffers.old.whole.items }
{
    let caller = own_frames_into(tables, stack, &mut buffers.frames)?;
    let front = listed_front(tables, &buffers.frames, alloc_fns);
    if front == buffers.frames.len() {
        push_list(
            tables,
            &buffers.frames,
            front,
            most,
            list_of(caller),
            fronts,
        )?;
        return Ok(false);
    }
    if lacks_frames(
        tables,
        caller,
        alloc_fns,
        flag_of(&buffers.whole, stack, caller),
    ) {
        tables.frames_into(stack, &mut buffers.frames)?;
        push_list(tables, &buffers.frames, front, most, None, fronts)?;
        return Ok(front == 0);
    }
    push_list(
        tables,
        &buffers.frames,
        front,
        most,
        list_of(caller),
        fronts,
    )?;
    Ok(front == 0)
}

/// Replaces `frames` by those of the stack's own node, and answers the stack that this is called from, 0 where there is none.
pub(crate) fn own_frames_into(
    tables: &Tables,
    stack: u32,
    frames: &mut Vec<FrameAt>,
) -> Result<u32, NoMemory>
    requires held { stack ≤ length tables.now.nodes }
    ensures frames { IfOk result (HasOwnFrames tables.now stack frames.new.items) }
    ensures lower { IfOk result (λ caller. caller ≢ 0 → caller < stack) }
    ensures places { OnOk result (All (λ at. IsFrame tables.now at) frames.new.items) }
{
    match tables.node(stack) {
        Some((instruction, caller)) => {
            tables.instruction_frames_into(instruction, frames)?;
            Ok(caller)
        }
        None => {
            tables.frames_into(stack, frames)?;
            Ok(0)
        }
    }
}

/// What is kept of a stack: the flags are those of the stacks right before the next one.
fn flag_of(whole: &[bool], next: u32, stack: u32) -> Option<bool>
    ensures flag { IfSome result (IsFlagOf whole.now next stack) }
{
    let place = (stack as usize + whole.len()).checked_sub(next as usize)?;
    whole.get(place).copied()
}

/// Whether the list of the stack that a node is called from lacks frames of it: its innermost one is an allocation function's,
/// as is known, or is looked up. Stack 0 has none to lack.
fn lacks_frames<A: Fn(&[u8]) -> bool>(
    tables: &Tables,
    caller: u32,
    alloc_fns: &FrameTest<A>,
    known: Option<bool>,
) -> bool
    requires held { caller ≤ length tables.now.nodes }
    requires callable { A.IsAlwaysCallable alloc_fns.now.test }
    requires known { known ≡ Some true → IsSaidWhole (says A.Fn alloc_fns.now) tables.now caller }
    ensures whole { result ≡ false
        → caller ≢ 0 → IsSaidWhole (says A.Fn alloc_fns.now) tables.now caller }
{
    if caller == 0 {
        return false;
    }
    if let Some(is_whole) = known {
        return !is_whole;
    }
    let innermost = tables.innermost_frame(caller);
    is_listed(tables, &innermost, alloc_fns)
}

/// The list of the stack that a node is called from, and none for stack 0.
fn list_of(caller: u32) -> Option<u32>
    ensures { result ≡ if caller == 0 then None else Some caller }
{
    if caller == 0 {
        return None;
    }
    Some(caller)
}

/// Appends a list: the texts of the frames from a place on, and then those of an earlier list, if any; at most `most`.
fn push_list(
    tables: &Tables,
    frames: &[FrameAt],
    front: usize,
    most: usize,
    next: Option<u32>,
    fronts: &mut CallChains,
) -> Result<(), NoMemory>
    requires frames { All (λ at. IsFrame tables.now at) frames.now }
    requires within { front ≤ length frames.now }
    requires earlier { IfSome next (λ list. list < length fronts.old) }
    requires few { length fronts.old < 2 ^ 32 - 1 }
    ensures appended { OnOk result
        (AppendsFrom tables.now frames.now front most next fronts.old fronts.new) }
    ensures count { OnOk result (HasOneMore fronts.old fronts.new) }
{
    let form = ListForm {
        style: Style::Addressed,
        most,
    };
    let trimmed = &frames[front..];
    fronts.push(tables, trimmed, form, next)
}
