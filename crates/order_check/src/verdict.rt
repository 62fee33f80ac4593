//! The answers of the check of a trace. When each comes is said at the call.
ghost use Rattle.std.specs.Prelude.{◌≡◌};

use hp_num::NoMemory;
use thiserror::Error;

/// Whether a trace is a recording.
#[derive(Clone, Copy, Debug, PartialEq, Eq)]
pub enum Verdict {
    /// It is one of so many events.
    Yes { events: u64 },
    /// It is none: the line of this number, from 1, is the first up to which no recording begins so. Where there is no such
    /// line, it is the one behind the last.
    No { line: u64 },
}

/// Why there is no answer.
#[derive(Clone, Copy, Debug, PartialEq, Eq, Error)]
pub enum CheckFault {
    /// A read failed.
    #[error("a read failed")]
    ReadFailed,
    /// A line has more bytes than the limit of a line, within the limit of the file.
    #[error("line too long")]
    LineTooLong,
    /// The file has more bytes than its limit, and a line doesn't end within that.
    #[error("input too long")]
    InputTooLong,
    /// Memory was wanting.
    #[error("out of memory")]
    NoMemory,
}

impl From<NoMemory> for CheckFault {
    ghost use Rattle.order_check.specs.declared.verdict.CheckFault.TheVariants.{NoMemory as OutOfMemory};

    ghost from_gives = { λ _ fault. fault ≡ OutOfMemory };

    fn from(_: NoMemory) -> CheckFault {
        CheckFault::NoMemory
    }
}

/// Why a line isn't taken.
#[derive(Clone, Copy)]
pub enum CheckRefusal {
    /// No recording begins with the lines up to this one.
    NotRecorded,
    /// Memory was wanting.
    NoMemory,
}

impl From<NoMemory> for CheckRefusal {
    ghost use Rattle.order_check.specs.declared.verdict.CheckRefusal.TheVariants.{NoMemory as OutOfMemory};

    ghost from_gives = { λ _ refusal. refusal ≡ OutOfMemory };

    fn from(_: NoMemory) -> CheckRefusal {
        CheckRefusal::NoMemory
    }
}
