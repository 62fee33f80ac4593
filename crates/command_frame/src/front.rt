//! Taking lines at the front of bytes, one after another, as long as the taker takes them. Whose bytes these are is no part of it.
ghost use Rattle.std.specs.Prelude.{◌+◌, ◌^◌, ◌≤◌, length};
ghost use Rattle.command_frame.specs.TakenBatch.{HasTakenBatch};

use crate::taker::LineTaker;

/// How many bytes at the front of others were taken, and how many lines these are.
#[derive(Clone, Copy)]
pub struct Batch {
    pub bytes: usize,
    pub lines: u64,
}

/// Takes lines at the front of the bytes, as long as the taker takes them, and appends what they give to standard output.
/// The loop stands apart, and has all registers there. The first line is taken here, so that none is called for in vain.
#[inline(always)]
pub fn take_batch<T: LineTaker>(taker: &mut T, ready: &[u8], output: &mut Vec<u8>) -> Batch
    requires sound { T.is_sound taker.old }
    requires room { T.measure taker.old + length ready.now ≤ 2 ^ 34 }
    ensures { HasTakenBatch T.LineTaker taker.old taker.new ready.now output.old output.new
        result }
{
    let Some(bytes) = taker.front(ready, output) else {
        return Batch { bytes: 0, lines: 0 };
    };
    let (_, rest) = ready.split_at(bytes);
    let more = take_lines(taker, rest, output);
    Batch {
        bytes: bytes + more.bytes,
        lines: more.lines + 1,
    }
}

/// The same, all of them in a loop.
#[inline(never)]
fn take_lines<T: LineTaker>(taker: &mut T, ready: &[u8], output: &mut Vec<u8>) -> Batch
    requires sound { T.is_sound taker.old }
    requires room { T.measure taker.old + length ready.now ≤ 2 ^ 34 }
    ensures { HasTakenBatch T.LineTaker taker.old taker.new ready.now output.old output.new
        result }
{
    let mut rest = ready;
    let mut lines = 0;
    'lines: loop {
        let Some(bytes) = taker.front(rest, output) else {
            return Batch {
                bytes: ready.len() - rest.len(),
                lines,
            };
        };
        rest = &rest[bytes..];
        lines += 1;
    }
}
