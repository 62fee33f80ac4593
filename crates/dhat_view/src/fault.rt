//! Why a profile has no view, and what each reason is called. How a fault is told to a user is the programs' business.
ghost use Rattle.std.specs.Prelude.{◌≡◌};
ghost use Rattle.dhat_view.specs.declared.fault.ViewFault.TheVariants.{NoMemory as OutOfMemory};
ghost use Rattle.dhat_view.specs.FaultText.{fault_text};

use dhat_json::DhatFault;
use thiserror::Error;

/// Why a profile has no view.
#[derive(Clone, Copy, Debug, PartialEq, Eq, Error)]
#[error("{}", self.text())]
pub enum ViewFault {
    /// The profile's points have no figures of the key.
    NoFigures,
    /// The figures of all points sum to more than 2^62.
    TooLarge,
    /// An allocation was refused.
    NoMemory,
}

impl ViewFault {
    /// What the fault is called, in few words: want of memory as where a profile is read.
    pub fn text(self) -> &'static str
        ensures { result.now ≡ fault_text self }
    {
        match self {
            ViewFault::NoFigures => "no figures",
            ViewFault::TooLarge => "figures too large",
            ViewFault::NoMemory => DhatFault::NoMemory.text(),
        }
    }
}

impl From<hp_num::NoMemory> for ViewFault {
    ghost from_gives = { λ _ fault. fault ≡ OutOfMemory };

    fn from(_error: hp_num::NoMemory) -> ViewFault {
        ViewFault::NoMemory
    }
}
