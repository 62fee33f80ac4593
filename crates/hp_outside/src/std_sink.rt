//! A writer of std, as standard output and standard error are, as a sink. It tells nothing of what
//! it took, and hands each piece on as one write.
ghost use Rattle.std.specs.Prelude.{◌≡◌, ◌<◌, ◌≤◌, None, length, IfOk};

use crate::sink::Sink;
use crate::store::Failed;
use std::io::{ErrorKind, Write};

/// A writer as a sink. Its count of faults rises at each error.
#[derive(Drop)]
pub struct StdSink<W: Write> {
    writer: W,
    faults: u64,
}

impl<W: Write> StdSink<W> {
    /// A sink that hands its pieces to this writer.
    pub fn new(writer: W) -> StdSink<W>
        ensures { ⟦<StdSink<W> as Sink>⟧.faults result ≡ 0 }
    {
        StdSink { writer, faults: 0 }
    }
}

impl<W: Write> Sink for StdSink<W> {
    ghost written = { λ _. None };

    ghost faults = { λ s. s.faults };

    fn write(&mut self, piece: &[u8]) -> Result<usize, Failed> {
        let answer = write_once(&mut self.writer, piece);
        if answer.is_err() {
            self.faults = self.faults.saturating_add(1);
        }
        answer
    }

    fn flush(&mut self) -> Result<(), Failed> {
        match self.writer.flush() {
            Ok(()) => Ok(()),
            Err(_) => {
                self.faults = self.faults.saturating_add(1);
                Err(Failed)
            }
        }
    }
}

/// One write, again where a signal interrupted it. To take nothing of a piece is to fail.
fn write_once<W: Write>(writer: &mut W, piece: &[u8]) -> Result<usize, Failed>
    ensures count { IfOk result (λ count. count ≤ length piece.now) }
    ensures progress { IfOk result (λ count. 0 < length piece.now → 0 < count) }
{
    for _ in 0..u64::MAX {
        match writer.write(piece) {
            Ok(0) => {
                return if piece.is_empty() { Ok(0) } else { Err(Failed) };
            }
            Ok(count) => return Ok(count),
            Err(error) => {
                if error.kind() != ErrorKind::Interrupted {
                    return Err(Failed);
                }
            }
        }
    }
    Err(Failed)
}
