//! One line of a tree as what takes it sees it: with the text of its front, and no tree beside it.
//! Which lines there are is no part of it.

/// What a line says the cost of.
#[derive(Clone, Copy)]
pub enum ShownPlace<'a> {
    /// A front, by its last text and the number of that text: the empty front has no text, and 0.
    Front { text: &'a [u8], number: usize },
    /// So many fronts that go on from one, whose shares are all below the threshold.
    Gathered { places: u64 },
}

/// A line. Those of longer fronts stand behind it, before the next line of its own level.
#[derive(Clone, Copy)]
pub struct ShownLine<'a> {
    /// How many texts the line's front has: 0 for the empty one.
    pub level: usize,
    /// How many lines of the next level belong to this one.
    pub children: u32,
    /// The cost, in the unit of the stacks' costs.
    pub cost: u64,
    /// What costs it.
    pub shown: ShownPlace<'a>,
}
