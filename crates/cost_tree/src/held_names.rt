//! The names of a tree's texts: its own, or those of the lists that it was made of.
ghost use Rattle.std.specs.Prelude.{◌≡◌};
ghost use Rattle.cost_tree.specs.HeldNames.{names_in};

use intern_tables::Names;

/// Names that are kept, or lent.
#[derive(Drop)]
pub(crate) enum HeldNames<'a> {
    Own { names: Names },
    Lent { names: &'a Names },
}

impl<'a> HeldNames<'a> {
    pub(crate) fn names(&self) -> &Names
        ensures { result.now ≡ names_in self.now }
    {
        match self {
            HeldNames::Own { names } => names,
            HeldNames::Lent { names } => names,
        }
    }
}
