//! The lists of texts of a trace's stacks from their outermost frames on: a stack's list is that of the stack that it is called
//! from, and the texts of its own node. So texts are made once a node.
ghost use Rattle.std.specs.Prelude.{◌≡◌, ◌+◌, ◌-◌, ◌^◌, ◌<◌, ◌≤◌, [], All, length, reverse, IfOk, OnOk};
ghost use Rattle.ht_trace.specs.IsFrame.{IsFrame};
ghost use Rattle.stack_trees.specs.declared.direction.Direction.TheVariants.{FromRoot};
ghost use Rattle.stack_trees.specs.Needed.{Begins};
ghost use Rattle.stack_trees.specs.StackTexts.{GainsTexts, lists_towards};

use crate::stack_lists::push_texts;
use cost_tree::CallerLists;
use hp_num::NoMemory;
use ht_trace::{FrameAt, Style, Tables};
use std::alloc::Global;

/// The lists of all stacks, or `NoMemory`.
pub fn lists_from_root(
    alloc: Global,
    tables: &Tables,
    style: Style,
) -> Result<CallerLists, NoMemory>
    ensures lists { IfOk result (λ lists. lists ≡ lists_towards FromRoot style tables.now) }
    ensures count { IfOk result (λ lists. length lists ≡ length tables.now.nodes + 1) }
{
    let mut lists = CallerLists::new(alloc);
    match push_lists(alloc, tables, style, &mut lists) {
        Ok(()) => Ok(lists),
        Err(fault) => {
            drop(lists);
            Err(fault)
        }
    }
}

/// Appends the lists of all stacks to none.
fn push_lists(
    alloc: Global,
    tables: &Tables,
    style: Style,
    lists: &mut CallerLists,
) -> Result<(), NoMemory>
    requires none { lists.old ≡ [] }
    ensures lists { OnOk result (lists.new ≡ lists_towards FromRoot style tables.now) }
    ensures count { OnOk result (length lists.new ≡ length tables.now.nodes + 1) }
{
    let mut frames = Vec::new(alloc);
    let mut text = Vec::new(alloc);
    'each_stack: for stack in 0..tables.stacks() {
        begin_list(tables, stack, lists, &mut frames)?;
        push_turned(tables, style, lists, &mut frames, &mut text)?;
    }
    Ok(())
}

/// Begins the list of the stack with that of the stack that it is called from, and replaces `frames` by those that follow,
/// from the innermost on.
fn begin_list(
    tables: &Tables,
    stack: u32,
    lists: &mut CallerLists,
    frames: &mut Vec<FrameAt>,
) -> Result<(), NoMemory>
    requires held { stack ≤ length tables.now.nodes }
    requires few { length lists.old < 2 ^ 32 - 1 }
    requires before { length lists.old ≡ stack }
    ensures begun { OnOk result
        (Begins tables.now stack frames.new.items lists.old lists.new) }
    ensures frames { OnOk result (All (λ at. IsFrame tables.now at) frames.new.items) }
{
    match tables.node(stack) {
        Some((instruction, caller)) => {
            lists.begin(caller)?;
            tables.instruction_frames_into(instruction, frames)
        }
        None => {
            lists.begin(0)?;
            tables.frames_into(stack, frames)
        }
    }
}

/// Appends the texts of the frames to the last list, the last one first. `text` is a buffer.
fn push_turned(
    tables: &Tables,
    style: Style,
    lists: &mut CallerLists,
    frames: &mut Vec<FrameAt>,
    text: &mut Vec<u8>,
) -> Result<(), NoMemory>
    requires frames { All (λ at. IsFrame tables.now at) frames.old.items }
    requires begun { 0 < length lists.old }
    ensures gained { OnOk result
        (GainsTexts style tables.now (reverse frames.old.items) lists.old lists.new) }
{
    turn(frames);
    push_texts(tables, frames, style, lists, text)
}

/// Turns a list that begins at the innermost frame round.
fn turn(frames: &mut Vec<FrameAt>)
    ensures { frames.new.items ≡ reverse frames.old.items }
{
    frames.reverse();
}
