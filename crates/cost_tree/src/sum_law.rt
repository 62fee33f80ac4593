//! Laws of the definitions, for whoever reads figures of trees. Each function does nothing.
ghost use Rattle.std.specs.Prelude.{List, ℕ};
ghost use Rattle.cost_tree.specs.Costed.{Costed};
ghost use Rattle.cost_tree.specs.NextFronts.{IsSumOfNext};

/// A front's cost is its own and that of the fronts one text longer. It does nothing.
pub fn sums_of_fronts()
    ensures { (front : List (List ℕ)) (stacks : List Costed) → IsSumOfNext front stacks }
{}
