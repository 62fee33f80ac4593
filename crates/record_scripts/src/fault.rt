//! Why a line of a script or of a modules file is refused. Which line it is, is known to whoever counts the lines.
ghost use Rattle.std.specs.Prelude.{◌≡◌};
ghost use Rattle.record_scripts.specs.declared.fault.ScriptFault.TheVariants.{NoMemory as OutOfMemory};
ghost use Rattle.record_scripts.specs.FaultText.{fault_text};

use hp_num::NoMemory;
use thiserror::Error;

/// Why a line can't follow the lines before it. Where several apply, the first of these is told.
#[derive(Clone, Copy, Debug, PartialEq, Eq, Error)]
#[error("{}", self.text())]
pub enum ScriptFault {
    /// The line is no turn of a script, or no line of a module.
    BadScriptLine,
    /// The line allocates a block whose ID is live in its script.
    BlockLive,
    /// The line frees or reallocates a block whose ID isn't live in its script.
    BlockNotLive,
    /// With the events of the line, all scripts together would have more than are allowed.
    TooManyEvents,
    /// Memory is wanting.
    NoMemory,
}

impl ScriptFault {
    /// What the fault is called, in few words. Want of memory is none, and a program never tells it as one.
    pub fn text(self) -> &'static str
        ensures { result.now ≡ fault_text self }
    {
        match self {
            ScriptFault::BadScriptLine => "bad script line",
            ScriptFault::BlockLive => "block live",
            ScriptFault::BlockNotLive => "block not live",
            ScriptFault::TooManyEvents => "too many events",
            ScriptFault::NoMemory => "out of memory",
        }
    }
}

impl<E: Drop + Into<NoMemory>> From<E> for ScriptFault {
    ghost from_gives = { λ _ fault. fault ≡ OutOfMemory };

    fn from(_error: E) -> ScriptFault {
        ScriptFault::NoMemory
    }
}
