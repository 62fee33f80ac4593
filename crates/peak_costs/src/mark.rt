//! The mark of the peak: the greatest total so far, when it was first reached, and the number of this peak.
ghost use Rattle.std.specs.Prelude.{◌≡◌, ◌-◌, ◌^◌, ◌<◌, ◌≤◌, IsTrue};
ghost use Rattle.live_ledger.specs.Events.{is_free};
ghost use Rattle.peak_costs.specs.Mark.{first_mark, raised};

use live_ledger::{Event, Ledger};

/// The greatest total in bytes, the first number of events after which it was reached, and how many peaks there were.
#[derive(Clone, Copy)]
pub struct Mark {
    pub(crate) total: u64,
    pub(crate) moment: u64,
    pub(crate) counter: u64,
}

impl Mark {
    /// The mark before any event: the total is 0 after no event, and this is peak 1.
    pub(crate) fn new() -> Mark
        ensures { result ≡ first_mark }
    {
        Mark {
            total: 0,
            moment: 0,
            counter: 1,
        }
    }

    /// Takes an event after which the ledger is this one: it brings a new peak where the total is greater than the mark's,
    /// which a free can't make it.
    pub(crate) fn follow(&mut self, event: Event, ledger: &Ledger)
        requires counter { self.old.counter < 2 ^ 64 - 1 }
        requires freed { IsTrue (is_free event) → ledger.now.totals.live ≤ self.old.total }
        ensures { self.new ≡ raised self.old ledger.now.totals.live ledger.now.totals.events }
    {
        if let Event::Free { .. } = event {
            return;
        }
        let totals = ledger.totals();
        self.raise(totals.live, totals.events);
    }

    /// Takes the total after so many events: it is a new peak where it is greater than the mark's.
    pub(crate) fn raise(&mut self, total: u64, events: u64)
        requires { self.old.counter < 2 ^ 64 - 1 }
        ensures { self.new ≡ raised self.old total events }
    {
        if total > self.total {
            self.total = total;
            self.moment = events;
            self.counter += 1;
        }
    }
}
