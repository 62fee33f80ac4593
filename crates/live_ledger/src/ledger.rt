//! The ledger: the figures of a heap trace and of each of its stacks, kept up event by event. Those of the whole trace
//! are the ledger of totals' part, and where the total was greatest is no part of it.
ghost use Rattle.std.specs.Prelude.{◌≡◌, ℕ, ◌+◌, ◌-◌, ◌^◌, ◌<◌, ◌≤◌, [], ◌++◌, length, None, Some, slice_get, slice_index, IfNone, IfOk, IfSome, OnOk, OnErr};
ghost use Rattle.std.specs.Result.{result_err};
ghost use Rattle.live_ledger.specs.Changes.{Allocates, Frees};
ghost use Rattle.live_ledger.specs.Faults.{fault_at};
ghost use Rattle.live_ledger.specs.ForEvents.{GoesOn, GoesOnWith, TellsFault};
ghost use Rattle.live_ledger.specs.GrownLedger.{AddsInfo, answered_info, with_stack};
ghost use Rattle.live_ledger.specs.InfoBlocks.{allocs_of};
ghost use Rattle.live_ledger.specs.LedgerState.{IsHeld, figures_at, without_figures};
ghost use Rattle.live_ledger.specs.Possible.{ArePossible};
ghost use Rattle.live_ledger.specs.Sound.{IsSound};
ghost use Rattle.live_ledger.specs.StandsFor.{AreFiguresOf, AreTotalsOf, StandsFor};
ghost use Rattle.live_ledger.specs.Taken.{HasTaken};
ghost use Rattle.live_ledger.specs.TotalsState.{IsKept, ledger_of};

use crate::event::{Event, EventFault};
use crate::figures::Figures;
use crate::sums::Sums;
use crate::totals::Totals;
use crate::totals_ledger::TotalsLedger;
use hp_num::NoMemory;
use std::alloc::Global;
use std::marker::Model;

/// The live figures of a trace: it stands for the list of events that it was given.
///
/// Stacks and infos may be added at any moment between events.
#[derive(Drop)]
pub struct Ledger {
    whole: TotalsLedger,
    stacks: Vec<Sums>,
}

impl Model for Ledger {
    ghost use Rattle.live_ledger.specs.Consistent.{AreConsistent};
    ghost use Rattle.live_ledger.specs.LedgerState.{LedgerState};
    ghost use Rattle.live_ledger.specs.TotalsState.{state_of};

    ghost Value = { LedgerState };

    ghost view = { λ ledger. state_of ledger.stacks.items ledger.whole };

    ghost invariant = { λ ledger.
        AreConsistent ledger.whole.stacks ledger.stacks.items ledger.whole.infos
        ledger.whole.sums };
}

impl Ledger {
    /// A ledger of no events, which holds stack 0 and no info. `NoMemory` says that memory is wanting.
    pub fn new(alloc: Global) -> Result<Self, NoMemory>
        ensures stands { IfOk result (λ ledger. StandsFor ledger []) }
        ensures stacks { IfOk result (λ ledger. ledger.stacks ≡ 1) }
        ensures infos { IfOk result (λ ledger. ledger.infos ≡ []) }
        ensures sound { IfOk result (λ ledger. IsSound ledger) }
    {
        let mut stacks = Vec::new(alloc);
        stacks.push(Sums::new())?;
        let whole = TotalsLedger::new(alloc);
        Ok(Ledger { whole, stacks })
    }

    /// Adds a stack and answers its number: the first that is added is stack 1.
    /// On `NoMemory` the ledger is as before.
    pub fn grow_stack(&mut self) -> Result<u32, NoMemory>
        requires { self.old.stacks < 2 ^ 32 - 1 }
        ensures number { IfOk result (λ number. number ≡ self.old.stacks) }
        ensures grown { OnOk result (self.new ≡ with_stack self.old) }
        ensures figures { (stack : ℕ) → figures_at self.new stack ≡ figures_at self.old stack }
        ensures stands { GoesOn (StandsFor self.old) (StandsFor self.new) }
        ensures unchanged { OnErr result (self.new ≡ self.old) }
        ensures sound { IsSound self.new }
    {
        let number = self.whole.stacks();
        self.stacks.push(Sums::new())?;
        self.whole.grow_stack();
        Ok(number)
    }

    /// Adds an info, for blocks of `size` bytes that are allocated in the held `stack`, and answers its
    /// number: infos are numbered from 0. On `NoMemory` the ledger is as before.
    pub fn grow_info(&mut self, stack: u32, size: u64) -> Result<u32, NoMemory>
        requires room { length self.old.infos < 2 ^ 32 - 1 }
        requires stack_held { stack < self.old.stacks }
        ensures info { AddsInfo self.old self.new stack size result }
        ensures stands { GoesOn (StandsFor self.old) (StandsFor self.new) }
        ensures unchanged { OnErr result (self.new ≡ self.old) }
        ensures sound { IsSound self.new }
    {
        let number = self.whole.grow_info(stack, size)?;
        Ok(number)
    }

    /// The answer that `apply` would give. The ledger stays as it is, and no memory is taken.
    ///
    /// The event names an info that is held, with that info's stack and size, and fewer than 2^32 events
    /// were taken before. `FreeOfNothing` comes exactly where a `Free`'s info has no live block,
    /// `CostTooLarge` exactly where an `Alloc` would make the sum of allocated sizes pass 2^62 bytes.
    pub fn check(&self, event: Event) -> Result<(), EventFault>
        requires held { IsHeld self.now event }
        requires count { self.now.totals.events < 2 ^ 32 }
        ensures by_figures { result_err result ≡ fault_at self.now event }
        ensures fault { TellsFault (StandsFor self.now) event result }
        ensures possible { OnOk result (GoesOnWith event (StandsFor self.now) ArePossible) }
        ensures sound { IsSound self.now }
    {
        self.whole.check(event)
    }

    /// Takes the event in constant time, or answers why it can't come now and stays as it was.
    /// No memory is taken.
    ///
    /// What the event must be, and when each fault comes, is as in `check`. A `Tick` changes nothing.
    /// The kind of the event is known at most calls.
    #[inline(always)]
    pub fn apply(&mut self, event: Event) -> Result<(), EventFault>
        requires held { IsHeld self.old event }
        requires count { self.old.totals.events < 2 ^ 32 }
        ensures by_figures { result_err result ≡ fault_at self.old event }
        ensures fault { TellsFault (StandsFor self.old) event result }
        ensures taken { OnOk result (HasTaken self.old self.new event) }
        ensures unchanged { OnErr result (self.new ≡ self.old) }
        ensures sound { IsSound self.new }
    {
        self.check(event)?;
        self.take(event);
        Ok(())
    }

    /// Takes an event for which `check` has found no fault, as `apply` does. No memory is taken.
    #[inline(always)]
    pub fn take(&mut self, event: Event)
        requires held { IsHeld self.old event }
        requires count { self.old.totals.events < 2 ^ 32 }
        requires no_fault { fault_at self.old event ≡ None }
        ensures { HasTaken self.old self.new event }
    {
        match event {
            Event::Alloc { info, stack, size } => self.allocate(info, stack, size),
            Event::Free { info, stack, size } => self.free(info, stack, size),
            Event::Tick { .. } => {
                // Says what holds of every ledger.
                let _stacks = self.stacks();
            }
        }
    }

    /// Counts a block of the info as allocated.
    #[inline(always)]
    fn allocate(&mut self, info: u32, stack: u32, size: u64)
        requires fits { self.old.totals.allocated + size ≤ 2 ^ 62 }
        requires held { slice_get self.old.infos info
            ≡ Some (record { stack = stack; size = size }) }
        requires count { self.old.totals.events < 2 ^ 32 }
        ensures allocates { Allocates self.old self.new info stack size }
        ensures sound { IsSound self.new }
    {
        self.whole.allocate(info, size);
        self.stacks[stack as usize].allocate(size);
    }

    /// Counts a live block of the info as freed.
    #[inline(always)]
    fn free(&mut self, info: u32, stack: u32, size: u64)
        requires live { 0 < slice_index self.old.blocks info }
        requires held { slice_get self.old.infos info
            ≡ Some (record { stack = stack; size = size }) }
        requires count { self.old.totals.events < 2 ^ 32 }
        ensures frees { Frees self.old self.new info stack size }
        ensures sound { IsSound self.new }
    {
        let ended = self.whole.free(info, size);
        self.stacks[stack as usize].free(size, ended);
    }

    /// The figures of all stacks together.
    pub fn totals(&self) -> Totals
        ensures value { result ≡ self.now.totals }
        ensures figures { GoesOn (StandsFor self.now) (AreTotalsOf result) }
        ensures sound { IsSound self.now }
    {
        self.whole.totals()
    }

    /// The figures of a stack that is held.
    pub fn stack(&self, stack: u32) -> Figures
        requires { stack < self.now.stacks }
        ensures value { result ≡ figures_at self.now stack }
        ensures figures { GoesOn (StandsFor self.now) (AreFiguresOf result stack) }
        ensures sound { IsSound self.now }
    {
        self.stacks[stack as usize].figures()
    }

    /// How many blocks of an info that is held were allocated.
    pub fn info_calls(&self, info: u32) -> u64
        requires { info < length self.now.infos }
        ensures value { result ≡ slice_index self.now.info_calls info }
        ensures calls { GoesOn (StandsFor self.now) (λ events. result ≡ allocs_of info events) }
        ensures within { result ≤ self.now.totals.calls }
    {
        self.whole.info_calls(info)
    }

    /// The size in bytes and the stack of an info; `None` exactly where there is no such info.
    pub fn info(&self, n: u32) -> Option<(u64, u32)>
        ensures none { IfNone result (length self.now.infos ≤ n) }
        ensures some { IfSome result
            (λ info. slice_get self.now.infos n ≡ Some (answered_info info)) }
        ensures stack_held { IfSome result (λ info. info.1 < self.now.stacks) }
    {
        self.whole.info(n)
    }

    /// How many stacks are held, stack 0 among them.
    pub fn stacks(&self) -> u32
        ensures value { result ≡ self.now.stacks }
        ensures sound { IsSound self.now }
    {
        self.whole.stacks()
    }

    /// How many infos are held.
    pub fn infos(&self) -> u32
        ensures { result ≡ length self.now.infos }
    {
        self.whole.infos()
    }

    /// What it keeps of the whole trace, without the figures of stacks.
    pub fn whole(&self) -> &TotalsLedger
        ensures ledger { ledger_of result.now ≡ without_figures self.now }
        ensures sound { IsKept result.now }
    {
        &self.whole
    }
}
