//! Peaks, as what follows a trace.
ghost use Rattle.std.specs.Prelude.{◌≡◌, ◌^◌, ◌<◌};
ghost use Rattle.live_ledger.specs.LedgerState.{IsHeld};
ghost use Rattle.trace_reading.specs.PeaksView.{Take};

use crate::follower::Follower;
use command_frame::LineRefusal;
use hp_num::NoMemory;
use ht_trace::Tables;
use live_ledger::{Event, EventFault, Steps, TotalsLedger};
use peak_costs::Peaks;
use std::marker::Brand;
use std::sync::ledger::Blank;

impl Follower for Peaks {
    ghost use Rattle.trace_reading.specs.PeaksView.{peaks_view};
    ghost use Rattle.trace_reading.specs.TraceReport.{ledger_faults};

    ghost view = { peaks_view };

    ghost faults = { ledger_faults };

    #[inline(always)]
    fn ledger(&self) -> &TotalsLedger {
        Peaks::ledger(self).whole()
    }

    #[inline(always)]
    fn goes_on(&self) {}

    fn close(self) {}

    fn stack(&mut self, _tables: &Tables) -> Result<(), NoMemory> {
        match self.grow_stack() {
            Ok(_) => Ok(()),
            Err(error) => Err(error),
        }
    }

    fn info(&mut self, stack: u32, size: u64, _tables: &Tables) -> Result<(), NoMemory> {
        match self.grow_info(stack, size) {
            Ok(_) => Ok(()),
            Err(error) => Err(error),
        }
    }

    /// Where lines come many at a time, the kind of the event is known at the call.
    #[inline(always)]
    fn event(&mut self, event: Event, _tables: &Tables) -> Result<(), LineRefusal<EventFault>> {
        match take_event(self, event) {
            Ok(()) => Ok(()),
            Err(fault) => Err(LineRefusal::Fault(fault)),
        }
    }
}

/// Takes an event into the peaks, or answers its fault.
#[inline(always)]
pub fn take_event(peaks: &mut Peaks, event: Event) -> Result<(), EventFault>
    requires held { IsHeld peaks.old.ledger event }
    requires count { peaks.old.ledger.totals.events < 2 ^ 32 }
    ensures { Take peaks.old peaks.new event result }
{
    apply_uncounted::<Brand>(peaks, event, Blank::new(1))
}

/// Applies an event with a counter of steps that nobody reads.
#[inline(always)]
fn apply_uncounted<L: std::sync::ledger::Ledger>(
    peaks: &mut Peaks,
    event: Event,
    blank: Blank,
) -> Result<(), EventFault>
    requires name { blank.name ≡ L.name }
    requires parts { blank.parts ≡ L.parts }
    requires some { 0 < blank.parts }
    requires held { IsHeld peaks.old.ledger event }
    requires count { peaks.old.ledger.totals.events < 2 ^ 32 }
    ensures { Take peaks.old peaks.new event result }
{
    let mut steps = Steps::<L>::new(blank);
    peaks.apply(event, &mut steps)
}
