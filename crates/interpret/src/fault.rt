//! Why a line of a symbol table is refused. Which line it is, is known to whoever counts the lines.
ghost use Rattle.std.specs.Prelude.{◌≡◌};
ghost use Rattle.interpret.specs.SymbolFaultText.{fault_text};
ghost use Rattle.interpret.specs.declared.fault.SymbolFault.TheVariants.{NoMemory as OutOfMemory};

use hp_num::NoMemory;
use ht_trace::LineError;
use thiserror::Error;

/// Why a line can't follow the lines before it in a symbol table.
#[derive(Clone, Copy, Debug, PartialEq, Eq, Error)]
#[error("{}", self.text())]
pub enum SymbolFault {
    /// The fields are not a module, a start, a size and one function, or those and a file and a line for each function;
    /// a text is empty, a number is none, the size is 0, or the range ends above 2^64 - 1.
    BadSymbolLine,
    /// The range has an offset in common with an earlier one of the same module.
    SymbolOverlap,
    /// Memory is wanting.
    NoMemory,
}

impl SymbolFault {
    /// What the fault is called, in few words: want of memory as at a line of a trace.
    pub fn text(self) -> &'static str
        ensures { result.now ≡ fault_text self }
    {
        match self {
            SymbolFault::BadSymbolLine => "bad symbol line",
            SymbolFault::SymbolOverlap => "symbols overlap",
            SymbolFault::NoMemory => LineError::NoMemory.text(),
        }
    }
}

impl<E: Drop + Into<NoMemory>> From<E> for SymbolFault {
    ghost from_gives = { λ _ fault. fault ≡ OutOfMemory };

    fn from(_error: E) -> SymbolFault {
        SymbolFault::NoMemory
    }
}
