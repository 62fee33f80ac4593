//! Sums of allocations and frees that only grow, of a whole trace or of one stack. What is live follows from them, so an
//! event writes no more of them than it adds to.
ghost use Rattle.std.specs.Prelude.{◌≡◌, ◌+◌, ◌^◌, ◌<◌, ◌≤◌};
ghost use Rattle.live_ledger.specs.Sums.{IsPaired, figures_of, no_sums, totals_of, with_alloc, with_free};

use crate::figures::Figures;
use crate::totals::Totals;

/// The sums over some events.
/// No event adds to two neighbours, which a compiler would put into one wide number, add to and take apart again.
#[derive(Clone, Copy)]
pub struct Sums {
    pub frees: u64,
    pub calls: u64,
    pub freed: u64,
    pub allocated: u64,
    pub temporary: u64,
}

impl Sums {
    /// The sums over no event.
    pub fn new() -> Sums
        ensures { result ≡ no_sums }
    {
        Sums {
            calls: 0,
            allocated: 0,
            frees: 0,
            freed: 0,
            temporary: 0,
        }
    }

    /// Adds an allocation of `size` bytes.
    pub fn allocate(&mut self, size: u64)
        requires calls { self.old.calls < 2 ^ 32 }
        requires allocated { self.old.allocated + size ≤ 2 ^ 62 }
        ensures { self.new ≡ with_alloc self.old size }
    {
        self.calls += 1;
        self.allocated += size;
    }

    /// Adds a free of `size` bytes, and `temporary` temporary allocations, of which a free ends one or none.
    pub fn free(&mut self, size: u64, temporary: u64)
        requires frees { self.old.frees < 2 ^ 32 }
        requires freed { self.old.freed + size ≤ 2 ^ 62 }
        requires temporary { self.old.temporary + temporary ≤ 2 ^ 32 }
        ensures { self.new ≡ with_free self.old size temporary }
    {
        self.frees += 1;
        self.freed += size;
        self.temporary += temporary;
    }

    /// The figures of a whole trace.
    pub fn totals(self) -> Totals
        requires sound { IsPaired self }
        requires few { self.calls + self.frees ≤ 2 ^ 32 }
        ensures { result ≡ totals_of self }
    {
        Totals {
            events: self.calls + self.frees,
            calls: self.calls,
            temporary: self.temporary,
            allocated: self.allocated,
            live: self.allocated - self.freed,
            blocks: self.calls - self.frees,
        }
    }

    /// The figures of one stack.
    pub fn figures(self) -> Figures
        requires sound { IsPaired self }
        ensures { result ≡ figures_of self }
    {
        Figures {
            live: self.allocated - self.freed,
            blocks: self.calls - self.frees,
            calls: self.calls,
            temporary: self.temporary,
            allocated: self.allocated,
        }
    }
}
