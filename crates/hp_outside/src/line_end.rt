//! What bytes that were taken from a file tell of its next line.
ghost use Rattle.std.specs.Prelude.{◌≡◌, ◌+◌, ◌<◌, ◌≤◌, length, MatchOption};
ghost use Rattle.std.specs.List.{position_or_len};
ghost use Rattle.hp_outside.specs.Lines.{HasNoFeed, IsFirstFeed, is_line_feed};
ghost use Rattle.hp_outside.specs.Judgement.{IsJudgement};

use crate::span::LineFault;
use memchr::memchr;

/// What is known of the next line.
pub(crate) enum Judgement {
    /// A line of so many bytes and its line feed stand within the limits.
    Line(usize),
    /// The line is too long, or the file.
    TooLong(LineFault),
    /// There is no line feed, and no more bytes than a line and the file may have.
    Open,
}

/// Judges the next line by the bytes that were taken, of which the first `scanned` hold no line
/// feed, where a line may have `line` bytes and the file `room` more.
pub(crate) fn judge(kept: &[u8], scanned: usize, line: usize, room: usize) -> Judgement
    requires known { scanned ≤ position_or_len is_line_feed kept.now }
    requires within { scanned ≤ length kept.now }
    ensures { IsJudgement line room kept.now result }
{
    let end = line_len(kept, scanned);
    if end > line && line < room {
        return Judgement::TooLong(LineFault::LineTooLong);
    }
    if end < kept.len() && end < room {
        return Judgement::Line(end);
    }
    if kept.len() > room {
        return Judgement::TooLong(LineFault::InputTooLong);
    }
    Judgement::Open
}

/// How many bytes stand before the first line feed, or are there at all.
fn line_len(kept: &[u8], scanned: usize) -> usize
    requires known { scanned ≤ position_or_len is_line_feed kept.now }
    requires within { scanned ≤ length kept.now }
    ensures value { result ≡ position_or_len is_line_feed kept.now }
    ensures bound { result ≤ length kept.now }
{
    match line_end(&kept[scanned..]) {
        Some(end) => scanned + end,
        None => kept.len(),
    }
}

/// The place of the first line feed.
fn line_end(bytes: &[u8]) -> Option<usize>
    ensures { MatchOption result (HasNoFeed bytes.now) (IsFirstFeed bytes.now) }
{
    memchr(b'\n', bytes)
}
