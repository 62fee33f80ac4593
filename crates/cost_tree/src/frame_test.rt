//! Which names are meant, by a closure that is kept.
ghost use Rattle.std.specs.Prelude.{◌≡◌, ℕ, List};
ghost use Rattle.std.specs.Fn.{FnReturnsAt};
ghost use Rattle.cost_tree.specs.FrameTexts.{StatesNames, TellsOf, TellsSame, says};

/// A test of names, as those of functions: it answers true exactly for the names of a list.
#[derive(Drop)]
pub struct FrameTest<F: Fn(&[u8]) -> bool> {
    test: F,
}

impl<F: Fn(&[u8]) -> bool> FrameTest<F> {
    /// Keeps the closure, which may be called on every name and answers true exactly for the names of some list.
    pub fn new(test: F) -> FrameTest<F>
        requires callable { F.IsAlwaysCallable test }
        requires stated { (texts : List (List ℕ)) × StatesNames (FnReturnsAt F.Fn test) texts }
        ensures closure { result.test ≡ test }
        ensures callable { F.IsAlwaysCallable result.test }
        ensures stated { TellsSame (FnReturnsAt F.Fn test) (FnReturnsAt F.Fn result.test) }
    {
        FrameTest { test }
    }

    /// Whether the name is one of the list's.
    pub fn of(&self, name: &[u8]) -> bool
        requires { F.IsAlwaysCallable self.now.test }
        ensures listed { TellsOf (says F.Fn self.now) name.now result }
    {
        (self.test)(name)
    }
}
