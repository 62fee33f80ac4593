//! One stack's sums, from which its figures follow after any number of events.
//! Which stack an event belongs to is the business of `lifetimes`.
ghost use Rattle.std.specs.Prelude.{◌≡◌, ◌+◌, ◌*◌, ◌-◌, ◌^◌, ◌<◌, ◌≤◌};
ghost use Rattle.dhat_metrics.specs.Life.{IsLife, figures_of, no_sums, with_alloc, with_free};

use crate::figures::LifeFigures;

/// What one stack has live, what it had most, and the sums of the times at which its blocks came and went. A block's own
/// times aren't kept: the lifetimes of all blocks together follow from the sums.
/// Figures that one event adds to are apart, so that a compiler doesn't put them into one wide number.
#[derive(Clone, Copy)]
pub(crate) struct Life {
    pub allocated: u64,
    pub ended: u64,
    pub calls: u64,
    pub most_bytes: u64,
    pub blocks: u64,
    pub most_blocks: u64,
    pub live: u64,
    pub began: u64,
}

impl Life {
    /// A stack without events.
    pub(crate) fn new() -> Life
        ensures { result ≡ no_sums }
    {
        Life {
            live: 0,
            blocks: 0,
            allocated: 0,
            calls: 0,
            began: 0,
            ended: 0,
            most_bytes: 0,
            most_blocks: 0,
        }
    }

    /// Takes an allocation of `size` bytes at a time.
    pub(crate) fn allocate(&mut self, size: u64, time: u64)
        requires sound { IsLife self.old (time - 1) }
        requires first { 0 < time }
        requires last { time ≤ 2 ^ 32 }
        requires fits { self.old.allocated + size ≤ 2 ^ 62 }
        ensures { self.new ≡ with_alloc self.old size time }
    {
        self.live += size;
        self.blocks += 1;
        self.allocated += size;
        self.calls += 1;
        self.began += time;
        if self.live > self.most_bytes {
            self.most_bytes = self.live;
            self.most_blocks = self.blocks;
        }
    }

    /// Takes a free of `size` bytes, which are live, at a time.
    pub(crate) fn free(&mut self, size: u64, time: u64)
        requires sound { IsLife self.old (time - 1) }
        requires first { 0 < time }
        requires last { time ≤ 2 ^ 32 }
        requires bytes { size ≤ self.old.live }
        requires block { 0 < self.old.blocks }
        ensures { self.new ≡ with_free self.old size time }
    {
        self.live -= size;
        self.blocks -= 1;
        self.ended += time;
    }

    /// The figures after so many events.
    pub(crate) fn figures(&self, events: u64) -> LifeFigures
        requires sound { IsLife self.now events }
        requires few { events ≤ 2 ^ 32 }
        ensures { result ≡ figures_of events self.now }
    {
        let lived = u128::from(self.ended) + u128::from(events) * u128::from(self.blocks)
            - u128::from(self.began);
        LifeFigures {
            tb: self.allocated,
            tbk: self.calls,
            tl: lived as u64,
            mb: self.most_bytes,
            mbk: self.most_blocks,
            eb: self.live,
            ebk: self.blocks,
        }
    }
}
