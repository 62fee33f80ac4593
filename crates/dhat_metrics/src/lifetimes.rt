//! Lifetimes: each stack's figures, kept up event by event. No block is kept, and no time of one.
ghost use Rattle.std.specs.Prelude.{◌≡◌, ◌+◌, ◌-◌, ◌^◌, ◌<◌, List, [], length, IfOk, OnOk, OnErr, IsTrue};
ghost use Rattle.live_ledger.specs.declared.event.Event.{Event};
ghost use Rattle.live_ledger.specs.Events.{IsTick, is_counted};
ghost use Rattle.dhat_metrics.specs.Changes.{Changes, IsOfHeld};
ghost use Rattle.dhat_metrics.specs.LifeState.{IsSound, figures_at, with_stack};
ghost use Rattle.dhat_metrics.specs.StandsFor.{AreFiguresOf, StandsFor, MayHappen, TakesEvent};

use crate::figures::LifeFigures;
use crate::life::Life;
use hp_num::NoMemory;
use live_ledger::{Event, possible_events};
use std::alloc::Global;
use std::marker::Model;

/// The lifetimes of a trace's blocks: it stands for the list of events that it was given. The k-th allocation or free has
/// the time k.
///
/// Stacks may be added at any moment between events.
#[derive(Drop)]
pub struct Lifetimes {
    lives: Vec<Life>,
    events: u64,
}

impl Model for Lifetimes {
    ghost use Rattle.dhat_metrics.specs.LifeState.{LifeState};
    ghost use Rattle.dhat_metrics.specs.Life.{AreLives, state_of};

    ghost Value = { LifeState };

    ghost view = { λ lifetimes. state_of lifetimes.events lifetimes.lives.items };

    ghost invariant = { λ lifetimes. AreLives lifetimes.events lifetimes.lives.items };
}

impl Lifetimes {
    /// Lifetimes of no events with one stack, stack 0, a trace's empty stack; or `NoMemory`.
    pub fn new(alloc: Global) -> Result<Lifetimes, NoMemory>
        ensures stands { IfOk result (λ lifetimes. StandsFor lifetimes []) }
        ensures stacks { IfOk result (λ lifetimes. length lifetimes.figures ≡ 1) }
        ensures sound { IfOk result (λ lifetimes. IsSound lifetimes) }
    {
        let mut lives = Vec::new(alloc);
        lives.push(Life::new())?;
        Ok(Lifetimes { lives, events: 0 })
    }

    /// Adds a stack and answers its number: the first that is added is stack 1.
    /// On `NoMemory` the lifetimes are as before.
    pub fn grow_stack(&mut self) -> Result<u32, NoMemory>
        requires { length self.old.figures < 2 ^ 32 - 1 }
        ensures number { IfOk result (λ number. number ≡ length self.old.figures) }
        ensures grown { OnOk result (self.new ≡ with_stack self.old) }
        ensures stands { (events : List Event) → StandsFor self.old events
            → StandsFor self.new events }
        ensures unchanged { OnErr result (self.new ≡ self.old) }
        ensures sound { IsSound self.new }
    {
        let number = self.lives.len() as u32;
        self.lives.push(Life::new())?;
        Ok(number)
    }

    /// Takes the event in constant time; a `Tick` changes nothing. No memory is taken.
    ///
    /// The event's stack is held, fewer than 2^32 allocations and frees were taken before, and the events so far with this
    /// one are some that a trace can have: a ledger of the same events says so where its `check` finds no fault.
    pub fn apply(&mut self, event: Event)
        requires held { IsOfHeld self.old event }
        requires count { self.old.events < 2 ^ 32 }
        requires possible { MayHappen self.old event }
        ensures stands { TakesEvent self.old self.new event }
        ensures changes { Changes self.old self.new event }
        ensures counted { IsTrue (is_counted event) → self.new.events ≡ self.old.events + 1 }
        ensures tick { IsTick event → self.new ≡ self.old }
        ensures stacks { length self.new.figures ≡ length self.old.figures }
        ensures sound { IsSound self.new }
    {
        possible_events();
        match event {
            Event::Alloc { stack, size, .. } => {
                self.events += 1;
                self.lives[stack as usize].allocate(size, self.events);
            }
            Event::Free { stack, size, .. } => {
                self.events += 1;
                self.lives[stack as usize].free(size, self.events);
            }
            Event::Tick { .. } => {}
        }
    }

    /// The figures of a stack that is held.
    pub fn figures(&self, stack: u32) -> LifeFigures
        requires { stack < length self.now.figures }
        ensures value { result ≡ figures_at self.now stack }
        ensures figures { (events : List Event) → StandsFor self.now events
            → AreFiguresOf result stack events }
        ensures sound { IsSound self.now }
    {
        self.lives[stack as usize].figures(self.events)
    }
}
