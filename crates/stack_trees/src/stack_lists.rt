//! The lists of texts of a trace's stacks from their innermost frames on, as far as a tree needs them.
//! What the tree says of them is no part of it.
ghost use Rattle.std.specs.Prelude.{◌≡◌, ◌+◌, ◌-◌, ◌^◌, ◌<◌, ◌≤◌, All, length, IfOk, OnOk};
ghost use Rattle.ht_trace.specs.IsFrame.{IsFrame};
ghost use Rattle.stack_trees.specs.Needed.{AppendsNeeded, lists_needed};
ghost use Rattle.stack_trees.specs.StackTexts.{GainsTexts};

use crate::list_form::ListForm;
use cost_tree::CallerLists;
use hp_num::NoMemory;
use ht_trace::{FrameAt, Style, Tables};
use std::alloc::Global;

/// What the frames of a stack and the text of a frame are read into.
#[derive(Drop)]
struct Buffers {
    frames: Vec<FrameAt>,
    text: Vec<u8>,
}

/// The lists of the stacks with these costs, or `NoMemory`. That of a stack which costs nothing is empty, and no text of
/// it is made.
pub(crate) fn stack_lists(
    alloc: Global,
    tables: &Tables,
    costs: &[u64],
    form: ListForm,
) -> Result<CallerLists, NoMemory>
    requires as_many { length costs.now ≡ length tables.now.nodes + 1 }
    ensures lists { IfOk result (λ lists. lists ≡ lists_needed form tables.now costs.now) }
{
    let mut lists = CallerLists::new(alloc);
    let mut buffers = Buffers {
        frames: Vec::new(alloc),
        text: Vec::new(alloc),
    };
    'each_stack: for stack in 0..tables.stacks() {
        let cost = costs[stack as usize];
        add_stack(tables, stack, cost, form, &mut lists, &mut buffers)?;
    }
    Ok(lists)
}

/// Appends the list of the stack.
fn add_stack(
    tables: &Tables,
    stack: u32,
    cost: u64,
    form: ListForm,
    lists: &mut CallerLists,
    buffers: &mut Buffers,
) -> Result<(), NoMemory>
    requires held { stack ≤ length tables.now.nodes }
    requires few { length lists.old < 2 ^ 32 - 1 }
    ensures added { OnOk result (AppendsNeeded form tables.now stack cost lists.old lists.new) }
{
    lists.begin(0)?;
    if cost == 0 {
        return Ok(());
    }
    let Buffers { frames, text } = buffers;
    tables.frames_into(stack, frames)?;
    frames.truncate(form.most);
    push_texts(tables, frames, form.style, lists, text)
}

/// Appends the texts of the frames to the last list, of which there must be one. `text` is a buffer.
pub(crate) fn push_texts(
    tables: &Tables,
    frames: &[FrameAt],
    style: Style,
    lists: &mut CallerLists,
    text: &mut Vec<u8>,
) -> Result<(), NoMemory>
    requires frames { All (λ at. IsFrame tables.now at) frames.now }
    requires begun { 0 < length lists.old }
    ensures gained { OnOk result (GainsTexts style tables.now frames.now lists.old lists.new) }
{
    'each_frame: for at in frames {
        text.clear();
        tables.put_frame(at, style, text)?;
        lists.push(text)?;
    }
    Ok(())
}
