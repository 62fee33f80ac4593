//! Tests of the public calls of `cost_tree` and `stack_trees`, in a crate of their own: a crate that has tests is proved twice. Those
//! of lists that go on with those of callers (`CallChains`), of the tree of them as they are cut (`CutFronts`), and of `FrameTest` are
//! runs of `massif` in `commands_tests`.
#![tactic(auto)]

#[cfg(test)]
mod tests;
