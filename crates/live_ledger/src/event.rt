//! The events of a heap trace, and the faults that an event has after the events before it.
//! What an event does to the figures is the ledger's part.
ghost use Rattle.std.specs.Prelude.{◌≡◌};
ghost use Rattle.live_ledger.specs.FaultText.{fault_text};

use thiserror::Error;

/// One event of a heap trace. Alike sizes of one stack share an info, which events name by its number.
#[derive(Clone, Copy, Debug)]
pub enum Event {
    /// A block of `size` bytes of the info is allocated in the stack.
    Alloc { info: u32, stack: u32, size: u64 },
    /// One of the info's live blocks is freed. Stack and size are those of its allocation.
    Free { info: u32, stack: u32, size: u64 },
    /// The clock shows `ms` milliseconds. A clock value is counted neither as an event nor in any figure.
    Tick { ms: u64 },
}

/// Why an event can't follow the events before it.
#[derive(Clone, Copy, Debug, PartialEq, Eq, Error)]
#[error("{}", self.text())]
pub enum EventFault {
    /// A `Free` whose info has no live block.
    FreeOfNothing,
    /// An `Alloc` that makes the sum of all allocated sizes pass 2^62 bytes.
    CostTooLarge,
}

impl EventFault {
    /// What the fault is called, in few words.
    pub fn text(self) -> &'static str
        ensures { result.now ≡ fault_text self }
    {
        match self {
            EventFault::FreeOfNothing => "free of nothing",
            EventFault::CostTooLarge => "too many bytes allocated",
        }
    }
}
