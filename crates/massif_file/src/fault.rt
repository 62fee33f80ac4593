//! Why the lines of a Massif file are refused, and what each reason is called. Which line it is, is known to whoever
//! counts the lines.
ghost use Rattle.std.specs.Prelude.{◌≡◌};
ghost use Rattle.massif_file.specs.declared.fault.ProfileFault.TheVariants.{NoMemory as OutOfMemory};
ghost use Rattle.massif_file.specs.FaultText.{fault_text};

use hp_num::NoMemory;
use thiserror::Error;

/// Why a line of a Massif file, or its end, is refused.
#[derive(Clone, Copy, Debug, PartialEq, Eq, Error)]
#[error("{}", self.text())]
pub enum ProfileFault {
    /// A line in the header's place that is none of the header's lines, or a time unit that isn't known.
    BadHeader,
    /// A line of a snapshot without the awaited key, or a `heap_tree` value that isn't known.
    BadSnapshot,
    /// A value that is no decimal number, or is above 2^62.
    BadNumber,
    /// A snapshot's number that isn't the count of those before it, or a time below the one before.
    WrongOrder,
    /// A line in a tree's place that isn't a tree line, or stands above level 256.
    BadTree,
    /// The lines end in the header, in a snapshot, in a tree or before the first snapshot.
    Truncated,
    /// An allocation was refused.
    NoMemory,
}

impl ProfileFault {
    /// What the fault is called, in few words.
    pub fn text(self) -> &'static str
        ensures { result.now ≡ fault_text self }
    {
        match self {
            ProfileFault::BadHeader => "bad header",
            ProfileFault::BadSnapshot => "bad snapshot",
            ProfileFault::BadNumber => "bad number",
            ProfileFault::WrongOrder => "wrong order",
            ProfileFault::BadTree => "bad tree",
            ProfileFault::Truncated => "truncated",
            ProfileFault::NoMemory => "out of memory",
        }
    }
}

impl<E: Drop> From<E> for ProfileFault
where
    NoMemory: From<E>,
{
    ghost from_gives = { λ _ fault. fault ≡ OutOfMemory };

    fn from(_error: E) -> ProfileFault {
        ProfileFault::NoMemory
    }
}
