//! The reader of a Massif file: it is given the lines one by one, and answers the profile at their end.
//! Where the lines come from, and how they are numbered in messages, is the caller's business.
ghost use Rattle.std.specs.Prelude.{◌≡◌, []};
ghost use Rattle.massif_file.specs.ReaderCalls.{GivesProfile, LendsProfile, TakesLine, TakesNext};
ghost use Rattle.massif_file.specs.StandsFor.{StandsFor};
ghost use Rattle.massif_file.specs.Progress.{in_descriptions};

use crate::fault::ProfileFault;
use crate::profile::Profile;
use crate::reading::Reading;
use std::alloc::Global;
use std::marker::Model;

/// A reader of a Massif file, which stands for the lines that it was given.
///
/// After a fault it answers that fault again, whatever it is given.
#[derive(Drop)]
pub struct ProfileReader {
    reading: Reading,
}

impl Model for ProfileReader {
    ghost use Rattle.massif_file.specs.Progress.{Progress};
    ghost use Rattle.massif_file.specs.Reading.{shown};

    ghost Value = { Progress };

    ghost view = { λ reader. shown reader.reading };
}

impl ProfileReader {
    /// A reader of no line. It takes no memory, and its later growth uses `alloc`.
    pub fn new(alloc: Global) -> ProfileReader
        ensures begin { result ≡ in_descriptions [] }
        ensures stands { StandsFor result [] }
    {
        ProfileReader {
            reading: Reading::new(alloc),
        }
    }

    /// Takes the next line, without its line feed, or answers why it is refused after the lines before it.
    /// `Truncated` never comes here. After a fault, want of memory included, each call answers that fault.
    pub fn line(&mut self, line: &[u8]) -> Result<(), ProfileFault>
        ensures step { TakesLine self.old line.now self.new result }
        ensures lines { TakesNext self.old line.now self.new result }
    {
        self.reading.line(line)
    }

    /// The profile of the lines so far, which is lent, or `Truncated` where they can't end here. After a fault of `line` it
    /// is that fault. It takes no memory.
    pub fn profile(&self) -> Result<&Profile, ProfileFault>
        ensures { LendsProfile self.now result }
    {
        self.reading.whole()
    }

    /// The profile of the lines, or `Truncated` where they end too early. After a fault of `line` it is that fault.
    pub fn finish(self) -> Result<Profile, ProfileFault>
        ensures { GivesProfile self result }
    {
        self.reading.end()
    }
}
