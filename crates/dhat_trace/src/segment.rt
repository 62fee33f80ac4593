//! Where a long way outwards from a stack is parted: the places of its frames are told segment by segment, each with the stack at which
//! it begins, so that another stack that is called from there goes on with them.
ghost use Rattle.std.specs.Prelude.{OnOk};
ghost use Rattle.dhat_trace.specs.Segments.{MayBegin};

use hp_num::NoMemory;

/// How many places a segment has at least, but for the outermost one. Fewer would make more lists, and more take more memory for
/// stacks that go apart within a segment.
const SEGMENT: usize = 64;

/// A stack on the way outwards from another one, and how many places come before those of its frames.
#[derive(Clone, Copy)]
pub(crate) struct Segment {
    pub(crate) stack: u32,
    pub(crate) start: usize,
}

/// Begins a segment at the stack where the one before has become long.
pub(crate) fn note_segment(
    stack: u32,
    start: usize,
    segments: &mut Vec<Segment>,
) -> Result<(), NoMemory>
    ensures { OnOk result (MayBegin stack start segments.old.items segments.new.items) }
{
    let before = match segments.last() {
        Some(segment) => segment.start,
        None => 0,
    };
    if start.saturating_sub(before) < SEGMENT {
        return Ok(());
    }
    segments.push(Segment { stack, start })?;
    Ok(())
}
