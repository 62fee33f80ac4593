//! Where a line stands, and why there is no next one.
ghost use Rattle.std.specs.Prelude.{◌≡◌};
ghost use Rattle.hp_outside.specs.FaultTexts.{line_text};

use thiserror::Error;

/// Where a line stands in its reader, which hands out its bytes.
#[derive(Clone, Copy)]
pub struct Span {
    /// The place of the first byte in the reader's buffer.
    pub start: usize,
    /// The place behind the last byte; the line feed is not within the span.
    pub end: usize,
}

/// Why there is no next line.
#[derive(Clone, Copy, Debug, PartialEq, Eq, Error)]
#[error("{}", self.text())]
pub enum LineFault {
    /// A read failed.
    ReadFailed,
    /// The line has more bytes than the limit of a line, within the limit of the file.
    LineTooLong,
    /// The file has more bytes than its limit, and the next line with its line feed is not within
    /// that.
    InputTooLong,
}

impl LineFault {
    /// What the fault is called, in few words.
    pub fn text(self) -> &'static str
        ensures { result.now ≡ line_text self }
    {
        match self {
            LineFault::ReadFailed => "cannot read",
            LineFault::LineTooLong => "line too long",
            LineFault::InputTooLong => "input too long",
        }
    }
}
