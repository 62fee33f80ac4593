//! The frames of the stacks that have a point, told by their places in the table of frames.
ghost use Rattle.std.specs.Prelude.{◌≡◌, ◌≤◌, ◌∷◌, [], All, IfOk, OnOk, codes, length};
ghost use Rattle.dhat_trace.specs.Backtraces.{Tells, TellFrames};
ghost use Rattle.dhat_trace.specs.FrameTable.{AddsTexts, frame_texts};
ghost use Rattle.dhat_trace.specs.KnownPlaces.{AreKnown, AreTold};

use crate::frame_table::FrameTable;
use crate::place_lists::PlaceLists;
use crate::points::CalledStack;
use crate::segment::Segment;
use hp_num::NoMemory;
use ht_trace::Tables;
use std::alloc::Global;

/// The places of the frames of each of these stacks, or `NoMemory`. The texts of the frames come to the table, which has the
/// root alone before.
pub(crate) fn backtraces(
    alloc: Global,
    tables: &Tables,
    stacks: &[CalledStack],
    table: &mut FrameTable,
) -> Result<PlaceLists, NoMemory>
    requires held { All (λ called. called.stack ≤ length tables.now.nodes) stacks.now }
    requires root { table.old.texts ≡ codes "[root]" ∷ [] }
    requires known { AreKnown tables.now table.old.texts table.old.known }
    ensures { IfOk result (TellFrames tables.now stacks.now table.new.texts) }
{
    let mut told = PlaceLists::new(alloc, tables.stacks() as usize)?;
    let mut places = Vec::new(alloc);
    let mut segments = Vec::new(alloc);
    'each_stack: for called in stacks {
        tell_stack(
            tables,
            called.stack,
            table,
            &mut places,
            &mut segments,
            &mut told,
        )?;
    }
    Ok(told)
}

/// Tells the places of a stack's frames, and those of the stacks at which a segment of the way outwards begins: each list has its
/// own places up to the next segment, and goes on with the list of that. So what stacks share is told once, whatever is inside it.
/// `places` and `segments` are buffers.
fn tell_stack(
    tables: &Tables,
    stack: u32,
    table: &mut FrameTable,
    places: &mut Vec<usize>,
    segments: &mut Vec<Segment>,
    told: &mut PlaceLists,
) -> Result<(), NoMemory>
    requires held { stack ≤ length tables.now.nodes }
    requires known { AreKnown tables.now table.old.texts table.old.known }
    requires told { AreTold tables.now table.old.texts told.old }
    ensures known { OnOk result (AreKnown tables.now table.new.texts table.new.known) }
    ensures added { OnOk result
        (AddsTexts table.old.texts (frame_texts tables.now stack) table.new.texts) }
    ensures told { OnOk result
        (Tells tables.now stack table.old.texts told.old table.new.texts told.new) }
{
    let mut next = table.gather(tables, told, stack, places, segments)?;
    let mut end = places.len();
    'inwards: while let Some(segment) = segments.pop() {
        // Each segment starts before those behind it. That it does is asked here, so that no clause has to tell it.
        if segment.start < end {
            told.set(segment.stack as usize, &places[segment.start..end], next)?;
            next = Some(segment.stack);
            end = segment.start;
        }
    }
    told.set(stack as usize, &places[..end], next)
}
