//! Peaks: a ledger, and beside it the peak of its total with each stack's share, which no new peak copies.
ghost use Rattle.std.specs.Prelude.{◌≡◌, ℕ, ◌+◌, ◌-◌, ◌^◌, ◌<◌, ◌≤◌, [], ◌++◌, length, slice_index, IfOk, OnOk, OnErr};
ghost use Rattle.live_ledger.specs.Events.{IsTick};
ghost use Rattle.live_ledger.specs.ForEvents.{GoesOn};
ghost use Rattle.live_ledger.specs.LedgerState.{IsHeld};
ghost use Rattle.live_ledger.specs.InStack.{blocks_in, live_in};
ghost use Rattle.peak_costs.specs.IsShare.{IsShare};
ghost use Rattle.peak_costs.specs.Peak.{IsIn, IsPeak, StandsFor, total_after};
ghost use Rattle.peak_costs.specs.PeakCalls.{AddsInfoAlone, TakesEvent};
ghost use Rattle.peak_costs.specs.PeakState.{IsSound, with_stack};

#[cfg(test)]
mod fields;

use crate::mark::Mark;
use crate::save::{has, save};
use hp_num::NoMemory;
use live_ledger::{Cells, Event, EventFault, Ledger, Steps};
use std::alloc::Global;
use std::marker::Model;

/// The live figures of a trace with their peak: it stands for the list of events that it was given.
///
/// Each stack has saved bytes, saved blocks and a stamp, the number of the peak for which they were saved. A share that
/// isn't saved for the present peak is the live figure, since the stack hasn't changed after it.
#[derive(Drop)]
pub struct Peaks {
    ledger: Ledger,
    saved: Cells,
    blocks: Cells,
    stamps: Cells,
    mark: Mark,
}

impl Model for Peaks {
    ghost use Rattle.peak_costs.specs.PeakState.{PeakState};
    ghost use Rattle.peak_costs.specs.Kept.{AreMarked, state_of};

    ghost Value = { PeakState };

    ghost view = { λ peaks.
        state_of peaks.ledger peaks.saved peaks.blocks peaks.stamps peaks.mark };

    ghost invariant = { λ peaks.
        AreMarked peaks.ledger peaks.saved peaks.blocks peaks.stamps peaks.mark };
}

impl Peaks {
    /// Peaks of no events, which hold stack 0 and no info. `NoMemory` says that memory is wanting.
    pub fn new(alloc: Global) -> Result<Peaks, NoMemory>
        ensures stands { IfOk result (λ peaks. StandsFor peaks []) }
        ensures stacks { IfOk result (λ peaks. peaks.ledger.stacks ≡ 1) }
        ensures infos { IfOk result (λ peaks. peaks.ledger.infos ≡ []) }
    {
        let ledger = Ledger::new(alloc)?;
        let mut saved = Cells::new(alloc);
        saved.push(0)?;
        let mut blocks = Cells::new(alloc);
        blocks.push(0)?;
        let mut stamps = Cells::new(alloc);
        stamps.push(0)?;
        Ok(Peaks {
            ledger,
            saved,
            blocks,
            stamps,
            mark: Mark::new(),
        })
    }

    /// Adds a stack and answers its number; the peak's shares stay, and the new stack's is 0.
    /// On `NoMemory` the peaks are as before.
    pub fn grow_stack(&mut self) -> Result<u32, NoMemory>
        requires { self.old.ledger.stacks < 2 ^ 32 - 1 }
        ensures number { IfOk result (λ number. number ≡ self.old.ledger.stacks) }
        ensures grown { OnOk result (self.new ≡ with_stack self.old) }
        ensures stands { GoesOn (StandsFor self.old) (StandsFor self.new) }
        ensures unchanged { OnErr result (self.new ≡ self.old) }
    {
        let stacks = self.ledger.stacks();
        add_cell(&mut self.saved, stacks)?;
        add_cell(&mut self.blocks, stacks)?;
        add_cell(&mut self.stamps, stacks)?;
        let number = self.ledger.grow_stack()?;
        Ok(number)
    }

    /// Adds an info, as the ledger does, and answers its number. On `NoMemory` the peaks are as before.
    pub fn grow_info(&mut self, stack: u32, size: u64) -> Result<u32, NoMemory>
        requires room { length self.old.ledger.infos < 2 ^ 32 - 1 }
        requires stack_held { stack < self.old.ledger.stacks }
        ensures info { AddsInfoAlone self.old.ledger self.new.ledger stack size result }
        ensures stands { GoesOn (StandsFor self.old) (StandsFor self.new) }
        ensures unchanged { OnErr result (self.new ≡ self.old) }
    {
        self.ledger.grow_info(stack, size)
    }

    /// Takes the event as the ledger does, and keeps the peak with it. No memory is taken.
    ///
    /// What the event must be, and when each fault comes, is as in the ledger's `apply`. Each change of a cell is one
    /// step of the counter: there are at most six, however many stacks there are.
    /// The kind of the event is known at most calls.
    #[inline(always)]
    pub fn apply<L: std::sync::ledger::Ledger>(
        &mut self,
        event: Event,
        steps: &mut Steps<L>,
    ) -> Result<(), EventFault>
        requires held { IsHeld self.old.ledger event }
        requires count { self.old.ledger.totals.events < 2 ^ 32 }
        ensures takes { TakesEvent self.old self.new event result }
        ensures tick { IsTick event → self.new ≡ self.old }
        ensures steps { steps.new ≤ steps.old + 6 }
        ensures sound { IsSound self.new }
    {
        match event {
            Event::Alloc { stack, .. } => self.take_event(stack, event, steps),
            Event::Free { stack, .. } => self.take_event(stack, event, steps),
            Event::Tick { .. } => {
                self.ledger.apply(event)?;
                Ok(())
            }
        }
    }

    /// Takes an allocation or a free of the stack.
    #[inline(always)]
    fn take_event<L: std::sync::ledger::Ledger>(
        &mut self,
        stack: u32,
        event: Event,
        steps: &mut Steps<L>,
    ) -> Result<(), EventFault>
        requires held { IsHeld self.old.ledger event }
        requires count { self.old.ledger.totals.events < 2 ^ 32 }
        requires own { IsIn stack event }
        ensures takes { TakesEvent self.old self.new event result }
        ensures steps { steps.new ≤ steps.old + 6 }
        ensures sound { IsSound self.new }
    {
        if has(&self.stamps, self.mark.counter, stack) {
            self.ledger.apply(event)?;
            self.mark.follow(event, &self.ledger);
            return Ok(());
        }
        let before = self.ledger.stack(stack);
        self.ledger.apply(event)?;
        save(
            &mut self.saved,
            &mut self.blocks,
            &mut self.stamps,
            self.mark.counter,
            stack,
            before,
            steps,
        );
        self.mark.follow(event, &self.ledger);
        Ok(())
    }

    /// The ledger of the same events.
    pub fn ledger(&self) -> &Ledger
        ensures { result.now ≡ self.now.ledger }
    {
        &self.ledger
    }

    /// The greatest total, in bytes.
    pub fn peak_total(&self) -> u64
        ensures value { result ≡ self.now.total }
        ensures total { GoesOn (StandsFor self.now)
            (λ events. result ≡ total_after self.now.moment events) }
        ensures sound { IsSound self.now }
    {
        self.mark.total
    }

    /// The least number of events after which the total is greatest.
    pub fn peak_moment(&self) -> u64
        ensures value { result ≡ self.now.moment }
        ensures peak { GoesOn (StandsFor self.now) (IsPeak result) }
        ensures sound { IsSound self.now }
    {
        self.mark.moment
    }

    /// The bytes that a held stack has live at the peak.
    pub fn peak_of(&self, stack: u32) -> u64
        requires { stack < self.now.ledger.stacks }
        ensures value { result ≡ slice_index self.now.shares stack }
        ensures share { IsShare live_in stack self.now result }
        ensures within { result ≤ self.now.total }
    {
        if self.stamps.at(stack) == self.mark.counter {
            self.saved.at(stack)
        } else {
            self.ledger.stack(stack).live
        }
    }

    /// The blocks that a held stack has live at the peak.
    pub fn peak_blocks_of(&self, stack: u32) -> u64
        requires { stack < self.now.ledger.stacks }
        ensures value { result ≡ slice_index self.now.block_shares stack }
        ensures share { IsShare blocks_in stack self.now result }
    {
        if self.stamps.at(stack) == self.mark.counter {
            self.blocks.at(stack)
        } else {
            self.ledger.stack(stack).blocks
        }
    }
}

fn add_cell(cells: &mut Cells, count: u32) -> Result<(), NoMemory>
    requires few { count < 2 ^ 32 - 1 }
    requires long { count ≤ length cells.old }
    ensures longer { OnOk result (count < length cells.new) }
    ensures no_shorter { length cells.old ≤ length cells.new }
    ensures values { (i : ℕ) → slice_index cells.new i ≡ slice_index cells.old i }
{
    if cells.len() == count {
        cells.push(0)?;
    }
    Ok(())
}
