//! The lines of a report's stacks and groups, each from its figure to its last frame, and how many are left.
//! What the figures are, and in which order the entries stand, is no part of it.
#![tactic(auto, using(hp_num::proofs::Laws::extends_same, hp_num::proofs::Laws::extends_more, hp_num::proofs::Laws::extends_trans))]

ghost use Rattle.std.specs.Prelude.{◌≡◌, ◌-◌, All, length, take};
ghost use Rattle.hp_num.specs.Extends.{Extends};
ghost use Rattle.ht_trace.specs.IsFrame.{IsFrame};
ghost use Rattle.ht_print.specs.Appends.{Appends};
ghost use Rattle.ht_print.specs.IsEntry.{IsEntry};
ghost use Rattle.ht_print.specs.Layouts.{AreEntries, group_lines, members_lines, unmerged_lines};
ghost use Rattle.ht_print.specs.ReportLines.{frame_lines, in_stack, left_line, member_at, place_at, stack_at, texts_of};

use crate::entry::Entry;
use crate::layout::Layout;
use crate::scale::Scale;
use hp_num::{NoMemory, put_bytes, put_dec};
use ht_trace::{FrameAt, Style, Tables};

/// Of some entries the first ones up to a number, and how many are left.
pub(crate) fn split_shown<T>(entries: &[T], limit: u32) -> (&[T], usize)
    ensures shown { result.0.now ≡ take limit entries.now }
    ensures left { result.1 ≡ length entries.now - limit }
{
    let (shown, left) = entries.split_at(entries.len().min(limit as usize));
    (shown, left.len())
}

/// Appends how many entries are left, where some are.
#[tactic(auto, unfolding(crate::specs::ReportLines::left_line))]
pub(crate) fn put_left(label: &[u8], left: usize, out: &mut Vec<u8>) -> Result<(), NoMemory>
    ensures appended { Appends (left_line label.now left) out.old out.new result }
    ensures kept { Extends out.old.items out.new.items }
{
    if left == 0 {
        return Ok(());
    }
    put_bytes(out, label)?;
    put_dec(out, left as u64)?;
    put_bytes(out, b"\n")
}

/// Appends the first stacks, each by itself, and how many are left. `frames` is a buffer.
pub(crate) fn put_stacks(
    layout: &Layout<'_>,
    scale: Scale,
    stacks: &[Entry],
    frames: &mut Vec<FrameAt>,
    out: &mut Vec<u8>,
) -> Result<(), NoMemory>
    requires entries { AreEntries layout.now scale stacks.now }
    ensures appended { Appends (unmerged_lines layout.now scale stacks.now) out.old out.new result }
    ensures kept { Extends out.old.items out.new.items }
{
    let (shown, left) = split_shown(stacks, layout.options.limit);
    'each_stack: for stack in shown {
        put_stack(layout.tables, scale, *stack, frames, out)?;
    }
    put_left(b"more stacks: ", left, out)
}

/// Appends a stack that stands by itself. `frames` is a buffer.
#[tactic(auto, unfolding(crate::specs::ReportLines::stack_lines))]
fn put_stack(
    tables: &Tables,
    scale: Scale,
    stack: Entry,
    frames: &mut Vec<FrameAt>,
    out: &mut Vec<u8>,
) -> Result<(), NoMemory>
    requires entry { IsEntry tables.now scale.total stack }
    ensures appended { Appends (stack_at tables.now scale stack) out.old out.new result }
    ensures kept { Extends out.old.items out.new.items }
{
    tables.frames_into(stack.stack, frames)?;
    let Some((innermost, others)) = frames.split_first() else {
        return Ok(());
    };
    scale.put(stack.figure, out)?;
    put_bytes(out, b" at ")?;
    tables.put_frame(innermost, Style::Plain, out)?;
    put_in_stack(stack.stack, out)?;
    put_frames(tables, b"  ", others, out)
}

/// Appends a group: its figure and its place, which is that of the stack, its first members, and how many are left. `frames`
/// is a buffer.
pub(crate) fn put_group(
    layout: &Layout<'_>,
    scale: Scale,
    group: Entry,
    members: &[Entry],
    frames: &mut Vec<FrameAt>,
    out: &mut Vec<u8>,
) -> Result<(), NoMemory>
    requires entry { IsEntry layout.now.tables.now scale.total group }
    requires members { AreEntries layout.now scale members.now }
    ensures appended { Appends (group_lines layout.now scale group members.now) out.old out.new result }
    ensures kept { Extends out.old.items out.new.items }
{
    put_place(layout.tables, scale, group, out)?;
    put_members(layout, scale, members, frames, out)
}

/// Appends the line of a group.
fn put_place(tables: &Tables, scale: Scale, group: Entry, out: &mut Vec<u8>) -> Result<(), NoMemory>
    requires entry { IsEntry tables.now scale.total group }
    ensures appended { Appends (place_at tables.now scale group) out.old out.new result }
    ensures kept { Extends out.old.items out.new.items }
{
    let innermost = tables.innermost_frame(group.stack);
    scale.put(group.figure, out)?;
    put_bytes(out, b" at ")?;
    tables.put_frame(&innermost, Style::Plain, out)?;
    put_bytes(out, b"\n")
}

/// Appends the first stacks of a group, and how many are left. `frames` is a buffer.
fn put_members(
    layout: &Layout<'_>,
    scale: Scale,
    members: &[Entry],
    frames: &mut Vec<FrameAt>,
    out: &mut Vec<u8>,
) -> Result<(), NoMemory>
    requires members { AreEntries layout.now scale members.now }
    ensures appended { Appends (members_lines layout.now scale members.now) out.old out.new result }
    ensures kept { Extends out.old.items out.new.items }
{
    let (shown, left) = split_shown(members, layout.options.sub_limit);
    'each_member: for member in shown {
        put_member(layout.tables, scale, *member, frames, out)?;
    }
    put_left(b"  more stacks: ", left, out)
}

/// Appends a stack of a group. `frames` is a buffer.
#[tactic(auto, unfolding(crate::specs::ReportLines::member_lines))]
fn put_member(
    tables: &Tables,
    scale: Scale,
    member: Entry,
    frames: &mut Vec<FrameAt>,
    out: &mut Vec<u8>,
) -> Result<(), NoMemory>
    requires entry { IsEntry tables.now scale.total member }
    ensures appended { Appends (member_at tables.now scale member) out.old out.new result }
    ensures kept { Extends out.old.items out.new.items }
{
    tables.frames_into(member.stack, frames)?;
    let Some((_, others)) = frames.split_first() else {
        return Ok(());
    };
    put_bytes(out, b"  ")?;
    scale.put(member.figure, out)?;
    put_in_stack(member.stack, out)?;
    put_frames(tables, b"    ", others, out)
}

/// Appends the number of a stack.
#[tactic(auto, unfolding(crate::specs::ReportLines::in_stack))]
fn put_in_stack(stack: u32, out: &mut Vec<u8>) -> Result<(), NoMemory>
    ensures appended { Appends (in_stack stack) out.old out.new result }
    ensures kept { Extends out.old.items out.new.items }
{
    put_bytes(out, b" in stack ")?;
    put_dec(out, u64::from(stack))?;
    put_bytes(out, b"\n")
}

/// Appends a line for each frame, with blanks before it.
fn put_frames(
    tables: &Tables,
    blanks: &[u8],
    frames: &[FrameAt],
    out: &mut Vec<u8>,
) -> Result<(), NoMemory>
    requires frames { All (λ at. IsFrame tables.now at) frames.now }
    ensures appended { Appends (frame_lines blanks.now (texts_of tables.now frames.now)) out.old out.new
        result }
    ensures kept { Extends out.old.items out.new.items }
{
    'each_frame: for at in frames {
        put_bytes(out, blanks)?;
        tables.put_frame(at, Style::Plain, out)?;
        put_bytes(out, b"\n")?;
    }
    Ok(())
}
