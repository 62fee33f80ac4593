//! A node as it is kept, beside the frames of its whole stack.
ghost use Rattle.std.specs.Prelude.{◌≡◌};
ghost use Rattle.stack_table.specs.Entries.{node_of};
ghost use Rattle.stack_table.specs.NodeNumber.{is_call};

/// One node: its instruction pointer, its parent's number, the frames that it adds, and those of its whole stack.
#[derive(Clone, Copy)]
pub struct NodeEntry {
    pub ip: u64,
    pub parent: u32,
    pub frames: u16,
    pub depth: u16,
}

impl NodeEntry {
    /// Whether it is a node of this instruction pointer, called from this parent.
    pub fn is_call(&self, ip: u64, parent: u32) -> bool
        ensures { result ≡ is_call ip parent (node_of self.now) }
    {
        self.ip == ip && self.parent == parent
    }
}
