//! One line of a tree.
//! How it is written is the business of the callers.
ghost use Rattle.std.specs.Prelude.{◌≡◌};

/// What a line says the cost of.
#[derive(Clone, Copy)]
pub enum Place {
    /// A node of the tree.
    Node { node: usize },
    /// So many children of one node, whose shares are all below the threshold.
    Gathered { places: u64 },
}

/// A line of a tree. Those of a node's children stand behind it, before the next line of its own level.
#[derive(Clone, Copy)]
pub struct CostLine {
    /// How many texts the line's front has: 0 for node 0.
    pub level: usize,
    /// How many lines of the next level belong to this one.
    pub children: u32,
    /// The cost, in the unit of the stacks' costs.
    pub cost: u64,
    /// What costs it.
    pub place: Place,
}
