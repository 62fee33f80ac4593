//! What follows the events of a trace, grown step by step beside the tables. What a line says, and which numbers it may name,
//! is the tables' part.
ghost use Rattle.std.specs.Prelude.{◌≡◌, List, Option, OnErr, OnOk};
ghost use Rattle.live_ledger.specs.declared.event.Event.{Event};
ghost use Rattle.live_ledger.specs.declared.event.EventFault.{EventFault};
ghost use Rattle.live_ledger.specs.LedgerState.{without_figures};
ghost use Rattle.live_ledger.specs.TotalsState.{ledger_of};
ghost use Rattle.ht_trace.specs.TableState.{TableState};
ghost use Rattle.ht_trace.specs.declared.step.Step.TheVariants as step;
ghost use Rattle.trace_reading.specs.Following.{AnswersEvent, Following, GoesOn, HasFollowed, IsAsBefore, MayTake};

use command_frame::LineRefusal;
use hp_num::NoMemory;
use ht_trace::Tables;
use live_ledger::{Event, EventFault, TotalsLedger};

/// What follows the events of a trace. The tables that it is handed have the line already whose step it takes.
pub trait Follower {
    /// What contracts see of it: its ledger, the lists of events that it stands for, and what always holds of it.
    ghost view: { Self → Following };

    /// The fault of an event after earlier ones, beside tables that have its line.
    ghost faults: { TableState → List Event → Event → Option EventFault };

    /// What its ledger keeps of the whole trace.
    fn ledger(&self) -> &TotalsLedger
        ensures { ledger_of result.now ≡ without_figures (view self.now).ledger };

    /// What it stands for stays so beside tables that have grown. It does nothing.
    fn goes_on(&self)
        ensures { GoesOn (view self.now) };

    /// Lets it go.
    /// A method, since a value whose type names a closure can't be let go as one of a type parameter.
    fn close(self);

    /// Takes the tables' last stack, which is one more. `NoMemory` where memory is wanting; it is of no use then.
    fn stack(&mut self, tables: &Tables) -> Result<(), NoMemory>
        requires { MayTake tables.now (view self.old) step.Stack }
        ensures { OnOk result (HasFollowed tables.now (view self.old) (view self.new) step.Stack) };

    /// Takes an info more, of this stack and with this size in bytes. `NoMemory` where memory is wanting; it is of no use
    /// then.
    fn info(&mut self, stack: u32, size: u64, tables: &Tables) -> Result<(), NoMemory>
        requires { MayTake tables.now (view self.old) (step.Info stack size) }
        ensures { OnOk result
            (HasFollowed tables.now (view self.old) (view self.new) (step.Info stack size)) };

    /// Takes an event. `Fault` exactly where it has one; `NoMemory` where an earlier event wanted memory that wasn't there.
    /// It is as before then. An event that wants memory itself is taken.
    fn event(&mut self, event: Event, tables: &Tables) -> Result<(), LineRefusal<EventFault>>
        requires { MayTake tables.now (view self.old) (step.Event event) }
        ensures followed { OnOk result
            (HasFollowed tables.now (view self.old) (view self.new) (step.Event event)) }
        ensures fault { AnswersEvent faults tables.now (view self.old) event result }
        ensures unchanged { OnErr result (IsAsBefore (view self.old) (view self.new)) };
}
