//! What a command over one trace writes, once all lines were read. Which lines a trace may have is no part of it.
ghost use Rattle.std.specs.Prelude.{ℕ, List, IfOk};
ghost use Rattle.trace_reading.specs.Reading.{IsSound, IsTextOfRead};

use crate::follower::Follower;
use command_frame::ReadyText;
use hp_num::NoMemory;
use ht_trace::Tables;
use std::alloc::Global;

/// What is written of a trace.
pub trait TraceWriter<F: Follower> {
    /// The text, ready to be written.
    type Rest: ReadyText + Drop;

    /// The text of a trace with these lines, the patterns of some suppressions being given before them.
    ghost text: { Self → List (List ℕ) → List (List ℕ) → List ℕ };

    /// The text of the trace that was read, by its tables and what followed its events, of which each may be let go before all
    /// of the text is made. `NoMemory` where memory is wanting.
    fn write(&self, alloc: Global, tables: Tables, follower: F) -> Result<Self::Rest, NoMemory>
        requires { IsSound tables (F.view follower) }
        ensures { IfOk result
            (λ rest. IsTextOfRead (text self.now) tables (F.view follower)
            (Self.Rest.bytes rest)) };
}
