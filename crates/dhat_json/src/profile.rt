//! What a DHAT file says, as values. How it is spelled is the business of the writer and the reader.

use crate::lists::{FrameList, Points, Texts};
use hp_num::Text;

/// The version of the format.
pub(crate) const VERSION: u64 = 2;

/// What is known of the lifetimes of a point's blocks.
#[derive(Clone, Copy)]
pub struct Life {
    /// Sum of the lifetimes, in the profile's unit of time.
    pub tl: u64,
    /// The most bytes that were live.
    pub mb: u64,
    /// Blocks that were live when the most bytes were.
    pub mbk: u64,
    /// Bytes that were live at the profile's peak.
    pub gb: u64,
    /// Blocks that were live at the profile's peak.
    pub gbk: u64,
    /// Bytes that were live at the end.
    pub eb: u64,
    /// Blocks that were live at the end.
    pub ebk: u64,
}

/// What is known of the accesses to a point's blocks.
#[derive(Clone, Copy)]
pub struct Access {
    /// Bytes that were read.
    pub rb: u64,
    /// Bytes that were written.
    pub wb: u64,
}

/// What one place of the program allocated.
#[derive(Drop)]
pub struct Point {
    /// Bytes of all its blocks.
    pub tb: u64,
    /// The number of all its blocks.
    pub tbk: u64,
    /// Lifetimes, where the profile tells of them.
    pub life: Option<Life>,
    /// Accesses, where the profile tells of them.
    pub access: Option<Access>,
    /// The place's frames from the innermost outwards, as places in the profile's table.
    pub fs: FrameList,
}

/// A whole profile.
#[derive(Drop)]
pub struct Dhat {
    /// How it was made: `heap`, `copy`, `ad-hoc` or another.
    pub mode: Text,
    /// What was done to the blocks, as `Allocated`.
    pub verb: Text,
    /// Whether its points tell of lifetimes.
    pub bklt: bool,
    /// Whether its points tell of accesses.
    pub bkacc: bool,
    /// The unit of sizes, where it isn't bytes.
    pub bu: Option<Text>,
    /// The plural of that unit.
    pub bsu: Option<Text>,
    /// The unit of blocks, where it isn't blocks.
    pub bksu: Option<Text>,
    /// The unit of time.
    pub tu: Text,
    /// That unit times a million.
    pub mtu: Text,
    /// Up to which average lifetime blocks are short-lived, in units of time.
    pub tuth: Option<u64>,
    /// The command that was run.
    pub cmd: Text,
    /// Its process.
    pub pid: u64,
    /// The time at its end.
    pub te: u64,
    /// The time of the peak.
    pub tg: Option<u64>,
    /// The points.
    pub pps: Points,
    /// The table of frames.
    pub ftbl: Texts,
}
