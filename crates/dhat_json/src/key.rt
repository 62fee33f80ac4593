//! The keys of a DHAT profile and of its points, and their names in the file.
//! Which of them must stand, and of what kind their values are, is the reader's business.
ghost use Rattle.std.specs.Prelude.{◌≡◌};
ghost use Rattle.dhat_json.specs.KeyName.{key_name};

/// A key of a DHAT profile or of one of its points, in the order in which they are checked.
#[derive(Clone, Copy, Debug, PartialEq, Eq)]
pub enum Key {
    /// The version of the format.
    DhatFileVersion,
    /// How the profile was made: `heap`, `copy`, `ad-hoc` or another.
    Mode,
    /// What was done to the blocks, as `Allocated`.
    Verb,
    /// Whether the points tell of lifetimes.
    Bklt,
    /// Whether the points tell of reads and writes.
    Bkacc,
    /// The unit of sizes, where it isn't bytes.
    Bu,
    /// The plural of that unit.
    Bsu,
    /// The unit of blocks, where it isn't blocks.
    Bksu,
    /// The unit of time.
    Tu,
    /// That unit times a million.
    Mtu,
    /// Up to which average lifetime blocks are short-lived, in units of time.
    Tuth,
    /// The command that was run.
    Cmd,
    /// The ID of its process.
    Pid,
    /// The time at its end.
    Te,
    /// The time of the peak.
    Tg,
    /// The table of frames.
    Ftbl,
    /// The points.
    Pps,
    /// Bytes of all blocks of a point.
    Tb,
    /// Number of all its blocks.
    Tbk,
    /// Sum of their lifetimes.
    Tl,
    /// The most bytes that were live.
    Mb,
    /// Blocks that were live then.
    Mbk,
    /// Bytes that were live at the peak.
    Gb,
    /// Blocks that were live at the peak.
    Gbk,
    /// Bytes that were live at the end.
    Eb,
    /// Blocks that were live at the end.
    Ebk,
    /// Bytes that were read.
    Rb,
    /// Bytes that were written.
    Wb,
    /// Counts of accesses by byte, which are dropped.
    Acc,
    /// The frames of a point, as places in the table.
    Fs,
}

impl Key {
    /// The key as it stands in the file.
    pub fn name(self) -> &'static str
        ensures name { result.now ≡ key_name self }
    {
        match self {
            Key::DhatFileVersion => "dhatFileVersion",
            Key::Mode => "mode",
            Key::Verb => "verb",
            Key::Bklt => "bklt",
            Key::Bkacc => "bkacc",
            Key::Bu => "bu",
            Key::Bsu => "bsu",
            Key::Bksu => "bksu",
            Key::Tu => "tu",
            Key::Mtu => "Mtu",
            Key::Tuth => "tuth",
            Key::Cmd => "cmd",
            Key::Pid => "pid",
            Key::Te => "te",
            Key::Tg => "tg",
            Key::Ftbl => "ftbl",
            Key::Pps => "pps",
            Key::Tb => "tb",
            Key::Tbk => "tbk",
            Key::Tl => "tl",
            Key::Mb => "mb",
            Key::Mbk => "mbk",
            Key::Gb => "gb",
            Key::Gbk => "gbk",
            Key::Eb => "eb",
            Key::Ebk => "ebk",
            Key::Rb => "rb",
            Key::Wb => "wb",
            Key::Acc => "acc",
            Key::Fs => "fs",
        }
    }
}
