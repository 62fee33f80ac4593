//! What makes the rest of the output of the lines that it has taken.
ghost use Rattle.command_frame.specs.Taker.{RefusesRest, WritesRest};

use crate::ready_text::ReadyText;
use crate::taker::{LineRefusal, LineTaker};
use std::alloc::Global;

/// A taker of the last file's lines.
pub trait LineReport: LineTaker {
    /// The rest of the output.
    type Rest: ReadyText + Drop;

    /// The rest of the output, or the fault of the file that has no line. `NoMemory` where memory is wanting.
    fn finish(self, alloc: Global) -> Result<Self::Rest, LineRefusal<Self::Fault>>
        requires sound { Self.is_sound self }
        ensures output { WritesRest Self.Rest.bytes (Self.report self)
            (Self.has_taken self) result }
        ensures fault { RefusesRest Self.Fault.told (Self.report self)
            (Self.has_taken self) result };

    /// Lets it go, where not all lines were taken.
    /// A method, since a value whose type names a closure can't be let go as one of a type parameter.
    fn close(self);
}
