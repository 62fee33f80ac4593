//! The line of an event at the front of some bytes.
ghost use Rattle.std.specs.Prelude.{◌≡◌, ◌<◌, ◌≤◌, length, IfSome};
ghost use Rattle.live_ledger.specs.LedgerState.{IsHeld};
ghost use Rattle.live_ledger.specs.TotalsState.{ledger_of};
ghost use Rattle.ht_trace.specs.LedgerFits.{least_length_of};
ghost use Rattle.ht_trace.specs.PassesLine.{event_of_info};
ghost use Rattle.trace_reading.specs.PassesFront.{HasStackBeside, PassesBeside};

use ht_lines::{EventKind, event_line};
use live_ledger::{Event, TotalsLedger};

/// The line of an event that was read.
#[derive(Clone, Copy)]
pub struct ReadLine {
    /// How many bytes it has, with its line feed.
    pub bytes: usize,
    pub event: Event,
}

/// The line of an event at the front, where it stands there in its usual form and the ledger holds its info. Any tables beside
/// the ledger pass it.
/// Each loop over it has the whole walk in its body.
#[inline(always)]
pub fn line_at_front(ledger: &TotalsLedger, ready: &[u8]) -> Option<ReadLine>
    ensures front { IfSome result
        (λ read. PassesBeside (ledger_of ledger.now) ready.now read.bytes read.event) }
    ensures held_event { IfSome result (λ read. IsHeld (ledger_of ledger.now) read.event) }
    ensures held_stack { IfSome result
        (λ read. HasStackBeside (ledger_of ledger.now) read.event) }
    ensures least { IfSome result (λ read. 3 < read.bytes) }
    ensures least_length { IfSome result (λ read. least_length_of read.event ≡ 3) }
    ensures held { IfSome result (λ read. read.bytes ≤ length ready.now) }
{
    let line = event_line(ready)?;
    let info = line.info as u32;
    let (size, stack) = ledger.info(info)?;
    let event = event_of_info(line.kind, info, stack, size);
    Some(ReadLine {
        bytes: line.bytes,
        event,
    })
}

/// The event of an info, with its stack and size.
pub fn event_of_info(kind: EventKind, info: u32, stack: u32, size: u64) -> Event
    ensures { result ≡ event_of_info kind info (record { stack = stack; size = size }) }
{
    match kind {
        EventKind::Allocation => Event::Alloc { info, stack, size },
        EventKind::Free => Event::Free { info, stack, size },
    }
}
