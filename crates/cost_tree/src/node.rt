//! One node of a tree.
//! Which front it stands for, and its last text, are told by the tree.
ghost use Rattle.std.specs.Prelude.{◌≡◌, ◌+◌, ◌==◌, ◌^◌, ◌<◌, if◌then◌else◌};

/// The figures of a front of some stacks' texts.
#[derive(Clone, Copy)]
pub struct CostNode {
    /// The node of the front without its last text; 0 at node 0.
    pub parent: usize,
    /// The sum of the costs of the stacks that begin with the front.
    pub cost: u64,
    /// The sum of the costs of the stacks that are the front.
    pub own: u64,
    /// The least stack with a cost other than 0 that begins with the front; 0 where there is none.
    pub first: u32,
}
