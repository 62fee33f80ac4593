//! The figures of a trace that grow with each event, and what an event makes of them.
//! Which snapshots are taken is no part of it.
ghost use Rattle.std.specs.Prelude.{◌≡◌, ◌+◌, ◌-◌, ◌^◌, ◌<◌, ◌≤◌, true, false, IfNone, IfSome};
ghost use Rattle.massif_sample.specs.Options.{AreInRange};
ghost use Rattle.massif_sample.specs.Running.{AreSound, CanCount, TimeFits, farther, no_figures, passed, passes_most, past_event, ticked, time_after, time_passed, with_event};

use crate::options::MassifOptions;
use live_ledger::Event;
use massif_file::TimeUnit;

/// The most bytes that are live, and the greatest time.
const MOST: u64 = 0x4000_0000_0000_0000;

/// The figures after some events, those of the counted ones.
#[derive(Clone, Copy)]
pub(crate) struct Running {
    /// Allocations and frees, counted or not.
    pub(crate) place: u64,
    /// The time of this place, in the chosen unit.
    pub(crate) time: u64,
    /// The greatest clock value so far, in milliseconds.
    clock: u64,
    /// Live bytes.
    pub(crate) heap: u64,
    /// Live bytes with what the heap adds to each block.
    pub(crate) gross: u64,
}

impl Running {
    /// The figures before any event.
    pub(crate) fn new() -> Running
        ensures { result ≡ no_figures }
    {
        Running {
            place: 0,
            time: 0,
            clock: 0,
            heap: 0,
            gross: 0,
        }
    }

    /// The figures with a clock value.
    fn ticked(self, ms: u64) -> Running
        ensures { result ≡ ticked self ms }
    {
        Running {
            clock: self.clock.max(ms),
            ..self
        }
    }

    /// The figures with an event that isn't counted.
    pub(crate) fn past_event(self, options: &MassifOptions, event: Event) -> Running
        requires place { self.place < 2 ^ 32 }
        ensures { result ≡ past_event options.now self event }
    {
        match event {
            Event::Alloc { .. } => self.passed(options),
            Event::Free { .. } => self.passed(options),
            Event::Tick { ms } => self.ticked(ms),
        }
    }

    /// The figures with an allocation or a free that isn't counted.
    fn passed(self, options: &MassifOptions) -> Running
        requires place { self.place < 2 ^ 32 }
        ensures { result ≡ passed options.now self }
    {
        Running {
            place: self.place + 1,
            time: self.time_passed(options.unit),
            ..self
        }
    }

    /// The figures with an event that is counted.
    #[inline(always)]
    pub(crate) fn with_event(self, options: &MassifOptions, event: Event) -> Running
        requires options { AreInRange options.now }
        requires sound { AreSound options.now self }
        requires place { self.place < 2 ^ 32 }
        requires within { CanCount options.now self event }
        ensures { result ≡ with_event options.now self event }
    {
        match event {
            Event::Alloc { size, .. } => {
                let bytes = options.gross(size);
                Running {
                    heap: self.heap + size,
                    gross: self.gross + bytes,
                    ..self.farther(options, bytes)
                }
            }
            Event::Free { size, .. } => {
                let bytes = options.gross(size);
                Running {
                    heap: self.heap - size,
                    gross: self.gross - bytes,
                    ..self.farther(options, bytes)
                }
            }
            Event::Tick { ms } => self.ticked(ms),
        }
    }

    /// The figures at the place behind a counted event of so many gross bytes, but for what is live there.
    #[inline(always)]
    fn farther(self, options: &MassifOptions, bytes: u64) -> Running
        requires place { self.place < 2 ^ 32 }
        requires time { TimeFits options.now.unit self }
        requires bytes { bytes ≤ 2 ^ 63 }
        ensures { result ≡ farther options.now self bytes }
    {
        Running {
            place: self.place + 1,
            time: self.time_after(options.unit, bytes),
            ..self
        }
    }

    /// These figures, or `None` where the live bytes or the time are more than they may be.
    #[inline(always)]
    pub(crate) fn bounded(self) -> Option<Running>
        ensures some { IfSome result (λ bounded. (bounded ≡ self) × (passes_most self ≡ false)) }
        ensures none { IfNone result (passes_most self ≡ true) }
    {
        if self.gross > MOST || self.time > MOST {
            return None;
        }
        Some(self)
    }

    /// The time behind a counted event of so many gross bytes.
    #[inline(always)]
    fn time_after(&self, unit: TimeUnit, bytes: u64) -> u64
        requires time { TimeFits unit self.now }
        requires bytes { bytes ≤ 2 ^ 63 }
        ensures { result ≡ time_after unit self.now bytes }
    {
        match unit {
            TimeUnit::Bytes => self.time + bytes,
            TimeUnit::Events => self.time + 1,
            TimeUnit::Milliseconds => self.clock,
            TimeUnit::Instructions => self.time,
        }
    }

    /// The time behind an event that isn't counted.
    fn time_passed(&self, unit: TimeUnit) -> u64
        ensures { result ≡ time_passed unit self.now }
    {
        match unit {
            TimeUnit::Milliseconds => self.clock,
            TimeUnit::Bytes => self.time,
            TimeUnit::Events => self.time,
            TimeUnit::Instructions => self.time,
        }
    }
}
