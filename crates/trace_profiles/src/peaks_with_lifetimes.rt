//! Peaks and the lifetimes of blocks, as what follows a trace.
ghost use Rattle.std.specs.Prelude.{IfOk};
ghost use Rattle.trace_profiles.specs.LifetimesView.{lifetimes_view, IsAlwaysNew};

use command_frame::LineRefusal;
use dhat_metrics::Lifetimes;
use hp_num::NoMemory;
use ht_trace::Tables;
use live_ledger::{Event, EventFault, TotalsLedger};
use peak_costs::Peaks;
use std::alloc::Global;
use trace_reading::{Follower, take_event};

/// Peaks, and the lifetimes of blocks, which take each event that the peaks took.
#[derive(Drop)]
pub struct PeaksWithLifetimes {
    pub peaks: Peaks,
    pub lifetimes: Lifetimes,
}

impl PeaksWithLifetimes {
    /// What has followed nothing, or `NoMemory`.
    pub fn new(alloc: Global) -> Result<PeaksWithLifetimes, NoMemory>
        ensures { IfOk result
            (λ lives. IsAlwaysNew (lifetimes_view lives.peaks lives.lifetimes)) }
    {
        let lifetimes = Lifetimes::new(alloc)?;
        let peaks = Peaks::new(alloc)?;
        Ok(PeaksWithLifetimes { peaks, lifetimes })
    }
}

impl Follower for PeaksWithLifetimes {
    ghost use Rattle.trace_reading.specs.TraceReport.{ledger_faults};

    ghost view = { λ lives. lifetimes_view lives.peaks lives.lifetimes };

    ghost faults = { ledger_faults };

    #[inline(always)]
    fn ledger(&self) -> &TotalsLedger {
        self.peaks.ledger().whole()
    }

    #[inline(always)]
    fn goes_on(&self) {}

    fn close(self) {}

    fn stack(&mut self, _tables: &Tables) -> Result<(), NoMemory> {
        match self.peaks.grow_stack() {
            Ok(_) => match self.lifetimes.grow_stack() {
                Ok(_) => Ok(()),
                Err(error) => Err(error),
            },
            Err(error) => Err(error),
        }
    }

    fn info(&mut self, stack: u32, size: u64, _tables: &Tables) -> Result<(), NoMemory> {
        match self.peaks.grow_info(stack, size) {
            Ok(_) => Ok(()),
            Err(error) => Err(error),
        }
    }

    #[inline(always)]
    fn event(&mut self, event: Event, _tables: &Tables) -> Result<(), LineRefusal<EventFault>> {
        match take_event(&mut self.peaks, event) {
            Ok(()) => {
                self.lifetimes.apply(event);
                Ok(())
            }
            Err(fault) => Err(LineRefusal::Fault(fault)),
        }
    }
}
