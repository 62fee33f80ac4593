//! The frames of a stack: those of its nodes' instructions, from the innermost node outwards.
//! The texts of frames are no part of it.
ghost use Rattle.std.specs.Prelude.{◌≡◌, ℕ, ◌+◌, ◌*◌, ◌^◌, ◌<◌, ◌≤◌, List, [], ◌∷◌, ◌++◌, length, vec_len, vec_capacity, IsOk, OnOk, OnErr};
ghost use Rattle.ht_trace.specs.CallAnswers.{frames_along};
ghost use Rattle.ht_trace.specs.StackFrames.{frames_of, no_stack, stack_frames};

use crate::frame::FrameAt;
use crate::instructions::InstructionTable;
use hp_num::NoMemory;
use stack_table::Nodes;

/// Replaces `out` by the frames of stack `n`, from the innermost on. On `NoMemory`, `out` holds what it held before.
pub fn replace_by_stack(
    instructions: &InstructionTable,
    nodes: &Nodes,
    n: u32,
    out: &mut Vec<FrameAt>,
) -> Result<(), NoMemory>
    requires { n ≤ length nodes.now }
    ensures frames { OnOk result (out.new.items ≡ stack_frames instructions.now nodes.now n) }
    ensures unchanged { OnErr result (out.new.items ≡ out.old.items) }
{
    if n == 0 {
        return replace_by_no_stack(out);
    }
    let count = count_frames(instructions, nodes, n);
    out.reserve(count.saturating_sub(out.len()))?;
    out.clear();
    push_stack(instructions, nodes, n, out)
}

/// Replaces `out` by the frames of an instruction, from the innermost on. On `NoMemory`, `out` holds what it held before.
pub fn replace_by_instruction(
    instructions: &InstructionTable,
    n: u32,
    out: &mut Vec<FrameAt>,
) -> Result<(), NoMemory>
    ensures frames { OnOk result (out.new.items ≡ frames_of instructions.now n) }
    ensures unchanged { OnErr result (out.new.items ≡ out.old.items) }
{
    let instruction = u64::from(n);
    let count = instructions.frame_count(instruction).unwrap_or(0) as usize;
    out.reserve(count.saturating_sub(out.len()))?;
    out.clear();
    push_instruction(instructions, instruction, out)
}

fn replace_by_no_stack(out: &mut Vec<FrameAt>) -> Result<(), NoMemory>
    ensures frame { OnOk result (out.new.items ≡ no_stack ∷ []) }
    ensures unchanged { OnErr result (out.new.items ≡ out.old.items) }
{
    out.reserve(1)?;
    out.clear();
    out.push(FrameAt {
        instruction: 0,
        index: 1,
    })?;
    Ok(())
}

/// How many frames stack `n` has.
fn count_frames(instructions: &InstructionTable, nodes: &Nodes, n: u32) -> usize
    requires { n ≤ length nodes.now }
    ensures { result ≡ length (frames_along instructions.now nodes.now n) }
{
    let mut count = 0;
    let mut at = n;
    'outwards: while let Some((instruction, parent)) = nodes.node(at) {
        count += instructions.frame_count(instruction).unwrap_or(0) as usize;
        at = parent;
    }
    count
}

/// Appends the frames of stack `n`, for which `out` has room.
fn push_stack(
    instructions: &InstructionTable,
    nodes: &Nodes,
    n: u32,
    out: &mut Vec<FrameAt>,
) -> Result<(), NoMemory>
    requires held { n ≤ length nodes.now }
    requires room { vec_len out.old
        + length (frames_along instructions.now nodes.now n)
        ≤ vec_capacity out.old }
    ensures succeeds { IsOk result }
    ensures appended { out.new.items
        ≡ out.old.items ++ frames_along instructions.now nodes.now n }
{
    let mut at = n;
    'outwards: while let Some((instruction, parent)) = nodes.node(at) {
        push_instruction(instructions, instruction, out)?;
        at = parent;
    }
    Ok(())
}

/// Appends the frames of an instruction, for which `out` has room.
fn push_instruction(
    instructions: &InstructionTable,
    instruction: u64,
    out: &mut Vec<FrameAt>,
) -> Result<(), NoMemory>
    requires { vec_len out.old + length (frames_of instructions.now instruction)
        ≤ vec_capacity out.old }
    ensures succeeds { IsOk result }
    ensures appended { out.new.items ≡ out.old.items ++ frames_of instructions.now instruction }
    ensures len { vec_len out.new
        ≡ vec_len out.old + length (frames_of instructions.now instruction) }
    ensures capacity { vec_capacity out.old ≤ vec_capacity out.new }
{
    let Some(count) = instructions.frame_count(instruction) else {
        return Ok(());
    };
    let instruction = instruction as u32;
    for index in 0..count {
        out.push(FrameAt { instruction, index })?;
    }
    Ok(())
}
