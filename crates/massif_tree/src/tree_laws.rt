//! Laws of the trees of snapshots, for the crates above, whose contracts speak of trees that they don't build.
ghost use Rattle.massif_tree.specs.TreeFacts.{StandsInProfile, HasSumAtRoot, MayBeWritten, HasLineTexts};

/// What the trees of snapshots are. It does nothing.
pub fn massif_trees()
    // A tree to a depth of at most 256 may stand in a profile: its counts are right, and its levels few enough. Its first
    // line has the sum of all costs.
    ensures right { (options : _) (total : _) (stacks : _) → StandsInProfile options total stacks }
    ensures root { (options : _) (total : _) (stacks : _) → HasSumAtRoot options total stacks }

    // Its lines may be written where the stacks can be counted, and so can what they cost, and where no text begins with a
    // blank or has a line feed.
    ensures writable { (options : _) (total : _) (stacks : _) → MayBeWritten options total stacks }

    // The texts of frames are such texts, where no string of the trace has a line feed.
    ensures texts { (tables : _) (alloc_fns : _) → HasLineTexts tables alloc_fns }
{}
