//! Why an event isn't taken, and what each reason is called.
ghost use Rattle.std.specs.Prelude.{◌≡◌};
ghost use Rattle.massif_sample.specs.declared.fault.SampleFault.TheVariants.{NoMemory as OutOfMemory};
ghost use Rattle.massif_sample.specs.FaultText.{fault_text};
ghost use Rattle.massif_sample.specs.SampleFault.{of_event};

use live_ledger::EventFault;
use thiserror::Error;

/// Why an event can't follow the events before it, or isn't taken.
#[derive(Clone, Copy, Debug, PartialEq, Eq, Error)]
#[error("{}", self.text())]
pub enum SampleFault {
    /// A `Free` whose info has no live block.
    FreeOfNothing,
    /// The sum of all allocated sizes passes 2^62 bytes with the event, or of a counted one the gross bytes that are live or the
    /// time pass 2^62.
    CostTooLarge,
    /// Memory was wanting for a snapshot.
    NoMemory,
}

impl SampleFault {
    /// What the fault is called, in few words: what the ledger has too is called as it is there.
    pub fn text(self) -> &'static str
        ensures { result.now ≡ fault_text self }
    {
        match self {
            SampleFault::FreeOfNothing => EventFault::FreeOfNothing.text(),
            SampleFault::CostTooLarge => EventFault::CostTooLarge.text(),
            SampleFault::NoMemory => "out of memory",
        }
    }
}

impl From<hp_num::NoMemory> for SampleFault {
    ghost from_gives = { λ _ fault. fault ≡ OutOfMemory };

    fn from(_error: hp_num::NoMemory) -> SampleFault {
        SampleFault::NoMemory
    }
}

impl From<EventFault> for SampleFault {
    ghost from_gives = { λ error fault. fault ≡ of_event error };

    fn from(error: EventFault) -> SampleFault {
        match error {
            EventFault::FreeOfNothing => SampleFault::FreeOfNothing,
            EventFault::CostTooLarge => SampleFault::CostTooLarge,
        }
    }
}
