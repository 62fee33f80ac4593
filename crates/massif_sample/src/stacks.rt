//! What is known of a trace's stacks where events of theirs are sampled.
ghost use Rattle.std.specs.Prelude.{◌≡◌, ℕ, ◌<◌, true, false, length, IfNone, IfSome};
ghost use Rattle.massif_sample.specs.Counted.{counts};
ghost use Rattle.massif_sample.specs.LiveCosts.{is_judged, live_cost};
ghost use Rattle.massif_sample.specs.StandsFor.{IsIn};

use cost_tree::FrameTest;
use ht_trace::Tables;
use live_ledger::{Event, Ledger};

/// The stacks of a trace: which of them are ignored, and what their texts are made of.
#[derive(Drop)]
pub(crate) struct Stacks<'a, A: Fn(&[u8]) -> bool> {
    /// For each stack of the tables whether it's ignored.
    pub(crate) judged: &'a [bool],
    pub(crate) tables: &'a Tables,
    /// The functions that stacks are shown without where they are innermost.
    pub(crate) skipped: &'a FrameTest<A>,
}

/// What a stack costs: its live bytes, and nothing where it's ignored.
pub(crate) fn live_cost(judged: &[bool], ledger: &Ledger, stack: u32) -> u64
    requires judged { stack < length judged.now }
    requires held { stack < ledger.now.stacks }
    ensures { result ≡ live_cost judged.now ledger.now stack }
{
    if judged[stack as usize] {
        return 0;
    }
    ledger.stack(stack).live
}

/// The stack of an event, where it is counted.
#[inline(always)]
pub(crate) fn counted_stack(judged: &[bool], event: Event) -> Option<u32>
    requires held { (stack : ℕ) → IsIn stack event → stack < length judged.now }
    ensures own { IfSome result (λ stack. IsIn stack event) }
    ensures counted { IfSome result (λ _. counts (is_judged judged.now) event ≡ true) }
    ensures none { IfNone result (counts (is_judged judged.now) event ≡ false) }
{
    match event {
        Event::Alloc { stack, .. } => unless_ignored(judged, stack),
        Event::Free { stack, .. } => unless_ignored(judged, stack),
        Event::Tick { .. } => None,
    }
}

/// The stack, where it isn't ignored.
fn unless_ignored(judged: &[bool], stack: u32) -> Option<u32>
    requires { stack < length judged.now }
    ensures some { IfSome result (λ found. (found ≡ stack) × (is_judged judged.now stack ≡ false)) }
    ensures none { IfNone result (is_judged judged.now stack ≡ true) }
{
    if judged[stack as usize] {
        return None;
    }
    Some(stack)
}
