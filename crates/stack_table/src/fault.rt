//! Why a node can't be added, and what each reason is called. The words of the programs' messages are no part of it.
ghost use Rattle.std.specs.Prelude.{◌≡◌};
ghost use Rattle.stack_table.specs.FaultText.{fault_text};

use std::alloc::AllocFailed;
use thiserror::Error;

/// Why a node can't be added to the nodes that are held. Where several apply, the first of these is told.
#[derive(Clone, Copy, Debug, PartialEq, Eq, Error)]
#[error("{}", self.text())]
pub enum NodeFault {
    /// The parent isn't 0, and no node that is held has its number.
    UnknownParent,
    /// The new stack would have more than 4,096 frames, with those of the parent's stack.
    TooDeep,
    /// 2^32 - 2 nodes are held, so that there is no number for one more.
    Full,
    /// Memory for one more node is wanting.
    NoMemory,
}

impl NodeFault {
    /// What the fault is called, in few words.
    pub fn text(self) -> &'static str
        ensures { result.now ≡ fault_text self }
    {
        match self {
            NodeFault::UnknownParent => "unknown parent",
            NodeFault::TooDeep => "stack too deep",
            NodeFault::Full => "too many nodes",
            NodeFault::NoMemory => "out of memory",
        }
    }
}

impl<T: Drop> From<AllocFailed<T>> for NodeFault {
    ghost use Rattle.stack_table.specs.declared.fault.NodeFault.TheVariants.{NoMemory};

    ghost from_gives = { λ _ fault. fault ≡ NoMemory };

    fn from(_error: AllocFailed<T>) -> NodeFault {
        NodeFault::NoMemory
    }
}
