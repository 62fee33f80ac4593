//! Why a line of a trace is refused, and what each reason is called. Where the line stands is no part of it.
ghost use Rattle.std.specs.Prelude.{◌≡◌};
ghost use Rattle.ht_trace.specs.ErrorOf.{of_malformed, of_node_fault};
ghost use Rattle.ht_trace.specs.ErrorText.{error_text};

use hp_num::NoMemory;
use ht_lines::Malformed;
use stack_table::NodeFault;
use std::alloc::{AllocError, AllocFailed};
use thiserror::Error;

/// Why a line can't follow the lines before it. The first six are the refusals of the grammar.
#[derive(Clone, Copy, Debug, PartialEq, Eq, Error)]
#[error("{}", self.text())]
pub enum LineError {
    /// A byte other than a blank follows the kind, a field isn't 1 to 16 hexadecimal digits, a clock value is above
    /// 2^62, or a module's range ends above 2^64 - 1.
    BadField,
    /// The line has too few fields.
    MissingField,
    /// The line has too many fields.
    ExtraField,
    /// The line is an allocation of a raw trace: `+` with three fields.
    NotInterpreted,
    /// The line is one of an interpreted trace. The tables, which are those of interpreted traces, never answer it.
    NotRaw,
    /// The file version isn't 1 to 3.
    BadVersion,
    /// No version line stands before a line that is neither a comment nor begins with `v`, or before the trace's end.
    NoVersion,
    /// A version line was read before.
    SecondVersion,
    /// The number of a module, function or file is above the count of the strings; 0, which is none, is always held.
    UnknownString,
    /// The number of a node's instruction is above the count of the instructions; 0 is always held.
    UnknownInstruction,
    /// The number of a node's parent is above the count of the nodes; 0 is always held.
    UnknownParent,
    /// The number of an info's node is above the count of the nodes; 0 is always held.
    UnknownTrace,
    /// The number of the info of an allocation or a free isn't below the count of the infos.
    UnknownAllocation,
    /// A node's stack would have more than 4,096 frames.
    TooDeep,
    /// The table that would grow is full: 2^32 - 1 strings, instructions, infos or patterns, or 2^32 - 2 nodes.
    TooMany,
    /// Memory is wanting.
    NoMemory,
}

impl LineError {
    /// What the error is called, in few words and without the line's number: what the grammar or a node table has too
    /// is called as it is there.
    pub fn text(self) -> &'static str
        ensures { result.now ≡ error_text self }
    {
        match self {
            LineError::BadField => Malformed::BadField.text(),
            LineError::MissingField => Malformed::MissingField.text(),
            LineError::ExtraField => Malformed::ExtraField.text(),
            LineError::NotInterpreted => Malformed::NotInterpreted.text(),
            LineError::NotRaw => Malformed::NotRaw.text(),
            LineError::BadVersion => Malformed::BadVersion.text(),
            LineError::NoVersion => "no version line",
            LineError::SecondVersion => "second version line",
            LineError::UnknownString => "unknown string",
            LineError::UnknownInstruction => "unknown instruction",
            LineError::UnknownParent => NodeFault::UnknownParent.text(),
            LineError::UnknownTrace => "unknown trace",
            LineError::UnknownAllocation => "unknown allocation",
            LineError::TooDeep => NodeFault::TooDeep.text(),
            LineError::TooMany => "table full",
            LineError::NoMemory => NodeFault::NoMemory.text(),
        }
    }
}

impl From<Malformed> for LineError {
    ghost from_gives = { λ fault error. error ≡ of_malformed fault };

    fn from(fault: Malformed) -> LineError {
        match fault {
            Malformed::BadField => LineError::BadField,
            Malformed::MissingField => LineError::MissingField,
            Malformed::ExtraField => LineError::ExtraField,
            Malformed::NotInterpreted => LineError::NotInterpreted,
            Malformed::NotRaw => LineError::NotRaw,
            Malformed::BadVersion => LineError::BadVersion,
        }
    }
}

impl From<NodeFault> for LineError {
    ghost from_gives = { λ fault error. error ≡ of_node_fault fault };

    fn from(fault: NodeFault) -> LineError {
        match fault {
            NodeFault::UnknownParent => LineError::UnknownParent,
            NodeFault::TooDeep => LineError::TooDeep,
            NodeFault::Full => LineError::TooMany,
            NodeFault::NoMemory => LineError::NoMemory,
        }
    }
}

impl From<NoMemory> for LineError {
    ghost use Rattle.ht_trace.specs.declared.error.LineError.TheVariants.{NoMemory as OutOfMemory};

    ghost from_gives = { λ _ error. error ≡ OutOfMemory };

    fn from(_: NoMemory) -> LineError {
        LineError::NoMemory
    }
}

impl From<AllocError> for LineError {
    ghost use Rattle.ht_trace.specs.declared.error.LineError.TheVariants.{NoMemory as OutOfMemory};

    ghost from_gives = { λ _ error. error ≡ OutOfMemory };

    fn from(_: AllocError) -> LineError {
        LineError::NoMemory
    }
}

impl<T: Drop> From<AllocFailed<T>> for LineError {
    ghost use Rattle.ht_trace.specs.declared.error.LineError.TheVariants.{NoMemory as OutOfMemory};

    ghost from_gives = { λ _ error. error ≡ OutOfMemory };

    fn from(_: AllocFailed<T>) -> LineError {
        LineError::NoMemory
    }
}
