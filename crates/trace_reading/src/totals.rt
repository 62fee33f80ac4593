//! The totals of a trace with their peak, as what follows it.
use crate::follower::Follower;
use command_frame::LineRefusal;
use hp_num::NoMemory;
use ht_trace::Tables;
use live_ledger::{Event, EventFault, TotalsLedger};
use peak_costs::PeakTotals;

impl Follower for PeakTotals {
    ghost use Rattle.trace_reading.specs.TotalsView.{totals_view};
    ghost use Rattle.trace_reading.specs.TraceReport.{ledger_faults};

    ghost view = { totals_view };

    ghost faults = { ledger_faults };

    #[inline(always)]
    fn ledger(&self) -> &TotalsLedger {
        PeakTotals::ledger(self)
    }

    #[inline(always)]
    fn goes_on(&self) {}

    fn close(self) {}

    fn stack(&mut self, _tables: &Tables) -> Result<(), NoMemory> {
        self.grow_stack();
        Ok(())
    }

    fn info(&mut self, stack: u32, size: u64, _tables: &Tables) -> Result<(), NoMemory> {
        match self.grow_info(stack, size) {
            Ok(_) => Ok(()),
            Err(error) => Err(error),
        }
    }

    /// Where lines come many at a time, the kind of the event is known at the call.
    #[inline(always)]
    fn event(&mut self, event: Event, _tables: &Tables) -> Result<(), LineRefusal<EventFault>> {
        match self.apply(event) {
            Ok(()) => Ok(()),
            Err(fault) => Err(LineRefusal::Fault(fault)),
        }
    }
}
