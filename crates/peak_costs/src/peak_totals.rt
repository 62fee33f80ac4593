//! The totals of a heap trace with their peak, and no figure of a stack.
ghost use Rattle.std.specs.Prelude.{◌≡◌, ℕ, ◌+◌, ◌-◌, ◌^◌, ◌<◌, ◌≤◌, [], ◌++◌, length, IfOk, OnOk, OnErr};
ghost use Rattle.live_ledger.specs.ForEvents.{GoesOn, GoesOnWith, TellsFault};
ghost use Rattle.live_ledger.specs.LedgerState.{IsHeld};
ghost use Rattle.live_ledger.specs.TotalsState.{ledger_of};
ghost use Rattle.peak_costs.specs.Peak.{IsPeak, total_after};
ghost use Rattle.peak_costs.specs.PeakCalls.{AddsEventAlone, AddsInfoAlone};
ghost use Rattle.peak_costs.specs.PeakTotals.{StandsFor, with_stack};

use crate::mark::Mark;
use hp_num::NoMemory;
use live_ledger::{Event, EventFault, TotalsLedger};
use std::alloc::Global;
use std::marker::Model;

/// The totals of a trace with their peak: it stands for the list of events that it was given.
#[derive(Drop)]
pub struct PeakTotals {
    ledger: TotalsLedger,
    mark: Mark,
}

impl Model for PeakTotals {
    ghost use Rattle.peak_costs.specs.PeakTotals.{HasMark, PeakTotalsState, state_of};

    ghost Value = { PeakTotalsState };

    ghost view = { λ peaks. state_of peaks.ledger peaks.mark };

    ghost invariant = { λ peaks. HasMark peaks.ledger peaks.mark };
}

impl PeakTotals {
    /// Totals of no events, with stack 0 and no info. It takes no memory.
    pub fn new(alloc: Global) -> PeakTotals
        ensures stands { StandsFor result [] }
        ensures stacks { result.ledger.stacks ≡ 1 }
        ensures infos { result.ledger.infos ≡ [] }
    {
        PeakTotals {
            ledger: TotalsLedger::new(alloc),
            mark: Mark::new(),
        }
    }

    /// Adds a stack: the first that is added is stack 1.
    pub fn grow_stack(&mut self)
        requires { self.old.ledger.stacks < 2 ^ 32 - 1 }
        ensures grown { self.new ≡ with_stack self.old }
        ensures stands { GoesOn (StandsFor self.old) (StandsFor self.new) }
    {
        self.ledger.grow_stack();
    }

    /// Adds an info, as the ledger does, and answers its number. On `NoMemory` the totals are as before.
    pub fn grow_info(&mut self, stack: u32, size: u64) -> Result<u32, NoMemory>
        requires room { length self.old.ledger.infos < 2 ^ 32 - 1 }
        requires stack_held { stack < self.old.ledger.stacks }
        ensures info { AddsInfoAlone self.old.ledger self.new.ledger stack size result }
        ensures stands { GoesOn (StandsFor self.old) (StandsFor self.new) }
        ensures unchanged { OnErr result (self.new ≡ self.old) }
    {
        let number = self.ledger.grow_info(stack, size)?;
        Ok(number)
    }

    /// Takes the event as the ledger does, and keeps the peak with it. No memory is taken.
    ///
    /// What the event must be, and when each fault comes, is as in the ledger's `apply`.
    /// The kind of the event is known at most calls.
    #[inline(always)]
    pub fn apply(&mut self, event: Event) -> Result<(), EventFault>
        requires held { IsHeld self.old.ledger event }
        requires count { self.old.ledger.totals.events < 2 ^ 32 }
        ensures fault { TellsFault (StandsFor self.old) event result }
        ensures stands { OnOk result
            (GoesOnWith event (StandsFor self.old) (StandsFor self.new)) }
        ensures ledger { AddsEventAlone self.old.ledger self.new.ledger }
        ensures unchanged { OnErr result (self.new ≡ self.old) }
    {
        self.ledger.apply(event)?;
        match event {
            Event::Alloc { .. } => {
                let totals = self.ledger.totals();
                self.mark.raise(totals.live, totals.events);
                Ok(())
            }
            // These leave no more live than there was.
            Event::Free { .. } => Ok(()),
            Event::Tick { .. } => Ok(()),
        }
    }

    /// The ledger of the same events.
    pub fn ledger(&self) -> &TotalsLedger
        ensures { ledger_of result.now ≡ self.now.ledger }
    {
        &self.ledger
    }

    /// The greatest total, in bytes.
    pub fn peak_total(&self) -> u64
        ensures total { GoesOn (StandsFor self.now)
            (λ events. result ≡ total_after self.now.moment events) }
    {
        self.mark.total
    }

    /// The least number of events after which the total is greatest.
    pub fn peak_moment(&self) -> u64
        ensures value { result ≡ self.now.moment }
        ensures peak { GoesOn (StandsFor self.now) (IsPeak result) }
    {
        self.mark.moment
    }
}
