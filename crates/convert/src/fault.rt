//! Why a profile can't be converted, and what each reason is called. How a fault is told to a user is the programs' business.
ghost use Rattle.std.specs.Prelude.{◌≡◌};
ghost use Rattle.convert.specs.declared.fault.ConvertFault.TheVariants.{NoMemory as OutOfMemory};
ghost use Rattle.convert.specs.FaultText.{fault_text};

use dhat_view::ViewFault;
use std::alloc::{AllocError, AllocFailed};
use thiserror::Error;

/// Why a profile can't be converted.
#[derive(Clone, Copy, Debug, PartialEq, Eq, Error)]
#[error("{}", self.text())]
pub enum ConvertFault {
    /// The profile's points have no figures of the key.
    NoFigures,
    /// The snapshot that is asked for isn't there or has no tree, or no snapshot has one.
    NoTree,
    /// A number, or the sum of some numbers, is above 2^62.
    TooLarge,
    /// An allocation was refused.
    NoMemory,
}

impl ConvertFault {
    /// What the fault is called, in few words: what a view has too is called as it is there.
    pub fn text(self) -> &'static str
        ensures { result.now ≡ fault_text self }
    {
        match self {
            ConvertFault::NoFigures => ViewFault::NoFigures.text(),
            ConvertFault::NoTree => "no tree",
            ConvertFault::TooLarge => ViewFault::TooLarge.text(),
            ConvertFault::NoMemory => ViewFault::NoMemory.text(),
        }
    }
}

impl From<hp_num::NoMemory> for ConvertFault {
    ghost from_gives = { λ _ fault. fault ≡ OutOfMemory };

    fn from(_error: hp_num::NoMemory) -> ConvertFault {
        ConvertFault::NoMemory
    }
}
