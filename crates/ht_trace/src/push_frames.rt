//! The frames of an instruction line, read from the numbers after its module in one walk.
//! Which frames are an instruction's own, once they are held, is the part of `instructions`.
ghost use Rattle.std.specs.Prelude.{◌≡◌, ℕ, ◌+◌, ◌^◌, ◌<◌, ◌≤◌, List, [], ◌∷◌, ◌++◌, length, None, Some, IfErr, IfNone, IfSome, OnOk};
ghost use Rattle.ht_lines.specs.Fields.{fields};
ghost use Rattle.ht_trace.specs.KeepsFrames.{KeepsFrames};
ghost use Rattle.ht_trace.specs.LineFault.{Tells, held_fault};
ghost use Rattle.ht_trace.specs.SaidFrames.{frame_said, tail_frames, tail_triples};

use crate::error::LineError;
use crate::frame::Frame;
use ht_lines::next_number;

/// The numbers of one frame: its function, its file, and the line in it.
#[derive(Clone, Copy)]
struct FrameNumbers {
    function: u64,
    file: u64,
    line: u64,
}

/// Appends the frames of an instruction line with `field_count` fields after its kind, of which the `tail` has all
/// but the first two.
///
/// `UnknownString` comes exactly where a function or a file is above `strings`. After an error more frames may stand
/// at the end.
pub fn push_frames(
    frames: &mut Vec<Frame>,
    field_count: u32,
    tail: &[u8],
    strings: u32,
) -> Result<(), LineError>
    requires { length (fields tail.now) + 2 ≡ field_count }
    ensures appended { OnOk result
        (frames.new.items ≡ frames.old.items ++ tail_frames tail.now) }
    ensures no_fault { OnOk result (held_fault strings (tail_frames tail.now) ≡ None) }
    ensures fault { IfErr result
        (λ error. Tells error (held_fault strings (tail_frames tail.now))) }
    ensures kept { KeepsFrames frames.old.items frames.new.items }
{
    let Some((function, after)) = next_number(tail) else {
        return push_frame(frames, without_file(0), strings);
    };
    if field_count % 3 != 0 {
        return push_triples(frames, tail, strings);
    }
    push_frame(frames, without_file(function), strings)?;
    push_triples(frames, after, strings)
}

/// The numbers of a frame that has a function, or 0 for none, and no file.
fn without_file(function: u64) -> FrameNumbers
    ensures function { result.function ≡ function }
    ensures file { result.file ≡ 0 }
    ensures line { result.line ≡ 0 }
{
    FrameNumbers {
        function,
        file: 0,
        line: 0,
    }
}

/// Appends a frame for each three numbers of a tail.
fn push_triples(frames: &mut Vec<Frame>, tail: &[u8], strings: u32) -> Result<(), LineError>
    ensures appended { OnOk result
        (frames.new.items ≡ frames.old.items ++ tail_triples tail.now) }
    ensures no_fault { OnOk result (held_fault strings (tail_triples tail.now) ≡ None) }
    ensures fault { IfErr result
        (λ error. Tells error (held_fault strings (tail_triples tail.now))) }
    ensures kept { KeepsFrames frames.old.items frames.new.items }
{
    let mut rest = tail;
    'triples: while let Some((numbers, after)) = next_triple(rest) {
        push_frame(frames, numbers, strings)?;
        rest = after;
    }
    Ok(())
}

/// The first three numbers of a text, as those of a frame, and what follows them.
fn next_triple(text: &[u8]) -> Option<(FrameNumbers, &[u8])>
    ensures none { IfNone result (tail_triples text.now ≡ []) }
    ensures some { IfSome result
        (λ found. tail_triples text.now ≡ frame_said found.0 ∷ tail_triples found.1.now) }
    ensures shorter { IfSome result (λ found. length found.1.now < length text.now) }
{
    let (function, after) = next_number(text)?;
    let (file, after) = next_number(after)?;
    let (line, after) = next_number(after)?;
    let numbers = FrameNumbers {
        function,
        file,
        line,
    };
    Some((numbers, after))
}

/// Appends a frame whose function and file are held.
fn push_frame(frames: &mut Vec<Frame>, numbers: FrameNumbers, strings: u32) -> Result<(), LineError>
    ensures appended { OnOk result
        (frames.new.items ≡ frames.old.items ++ frame_said numbers ∷ []) }
    ensures no_fault { OnOk result (held_fault strings (frame_said numbers ∷ []) ≡ None) }
    ensures fault { IfErr result
        (λ error. Tells error (held_fault strings (frame_said numbers ∷ []))) }
    ensures kept { KeepsFrames frames.old.items frames.new.items }
{
    let FrameNumbers {
        function,
        file,
        line,
    } = numbers;
    let held = u64::from(strings);
    if function > held || file > held {
        return Err(LineError::UnknownString);
    }
    frames.push(Frame {
        function: function as u32,
        file: file as u32,
        line,
    })?;
    Ok(())
}
