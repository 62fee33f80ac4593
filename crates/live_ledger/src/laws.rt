//! Laws of the definitions, for the crates above. Each function does nothing.
ghost use Rattle.std.specs.Prelude.{ℕ, List};
ghost use Rattle.live_ledger.specs.declared.event.Event.{Event};
ghost use Rattle.live_ledger.specs.ByInfo.{AreBalanced};
ghost use Rattle.live_ledger.specs.LedgerState.{LedgerState};
ghost use Rattle.live_ledger.specs.Possible.{ArePossible};
ghost use Rattle.live_ledger.specs.SumLaws.{HasSumsByInfo, HaveFreesWithin};

/// A sum over a trace's allocations, of any weight that an info gives them, is the sum over the infos, each weight as
/// often as the ledger counts allocations of that info. It does nothing.
pub fn sums_by_info()
    ensures { (state : LedgerState) (events : List Event) → HasSumsByInfo state events }
{}

/// In a list of events that a trace can have, no stack has more freed than allocated. It does nothing.
pub fn possible_events()
    ensures { (events : List Event) (stack : ℕ) → ArePossible events → AreBalanced stack events }
{}

/// In a list of events that a trace can have, no more is freed than allocated, by any weight that an info gives its
/// blocks. It does nothing.
pub fn possible_weights()
    ensures { (events : List Event) → HaveFreesWithin events }
{}
