//! Worked traces, with the figures and the peaks that a reader computes by hand.
ghost use Rattle.std.specs.Prelude.{◌≡◌, ◌+◌, ◌-◌, ◌^◌, ◌<◌, IfSome};
ghost use Rattle.live_ledger.specs.LedgerState.{IsHeld};

use hp_num::{NoMemory, put_bytes, put_dec};
use live_ledger::{Event, Ledger, Steps};
use peak_costs::Peaks;
use std::alloc::Global;
use std::marker::Brand;
use std::process::Abort;
use std::sync::ledger::{Blank, Ledger as Counter};

/// An event of an info, or a clock value.
#[derive(Clone, Copy)]
enum Step {
    Alloc(u32),
    Free(u32),
    Clock,
}

/// A trace of two infos in stacks 0 to 2, and what is told of it: the live bytes after each step, or why it isn't taken; the events,
/// calls, temporary calls, allocated bytes, live bytes and blocks, the peak and its moment; of each stack, in one line, the live
/// bytes and blocks, calls, temporary calls, allocated bytes, and its bytes and blocks at the peak; and the calls of each info.
pub(crate) struct Case {
    infos: [(u32, u64); 2],
    steps: &'static [Step],
    told: &'static [u8],
}

pub(crate) static CASES: [Case; 6] = [
    Case {
        infos: [(0, 100), (2, 32)],
        steps: &[Step::Clock],
        told: b"\
0.
0 0 0 0 0 0 0 0
0 0 0 0 0 0 0|0 0 0 0 0 0 0|0 0 0 0 0 0 0|
0 0
",
    },
    // Two sizes in one stack.
    Case {
        infos: [(0, 100), (0, 32)],
        steps: &[
            Step::Alloc(0),
            Step::Alloc(1),
            Step::Free(0),
            Step::Alloc(0),
        ],
        told: b"\
100.132.32.132.
4 3 0 232 132 2 132 2
132 2 3 0 232 132 2|0 0 0 0 0 0 0|0 0 0 0 0 0 0|
2 1
",
    },
    // The total 100 is reached twice, and the first time counts. A block that is freed after a clock value is temporary still.
    Case {
        infos: [(2, 100), (1, 100)],
        steps: &[Step::Alloc(0), Step::Clock, Step::Free(0), Step::Alloc(1)],
        told: b"\
100.100.0.100.
3 2 1 200 100 1 100 1
0 0 0 0 0 0 0|100 1 1 0 100 0 0|0 0 1 1 100 100 1|
1 1
",
    },
    // Stack 2 alone has 150 bytes at the end, and 50 at the peak.
    Case {
        infos: [(1, 100), (2, 50)],
        steps: &[
            Step::Alloc(1),
            Step::Alloc(1),
            Step::Free(1),
            Step::Alloc(0),
            Step::Free(0),
            Step::Alloc(1),
            Step::Alloc(1),
        ],
        told: b"\
50.100.50.150.50.100.150.
7 5 2 300 150 3 150 4
0 0 0 0 0 0 0|0 0 1 1 100 100 1|150 3 4 1 200 50 1|
1 4
",
    },
    Case {
        infos: [(0, 100), (0, 32)],
        steps: &[Step::Free(0)],
        told: b"\
free of nothing.
0 0 0 0 0 0 0 0
0 0 0 0 0 0 0|0 0 0 0 0 0 0|0 0 0 0 0 0 0|
0 0
",
    },
    // The greatest sum of allocated bytes, 2^62, and one more.
    Case {
        infos: [(0, 0x2000_0000_0000_0000), (0, 1)],
        steps: &[Step::Alloc(0), Step::Alloc(0), Step::Alloc(1)],
        told: b"\
2305843009213693952.4611686018427387904.too many bytes allocated.
2 2 0 4611686018427387904 4611686018427387904 2 4611686018427387904 2
4611686018427387904 2 2 0 4611686018427387904 4611686018427387904 2|0 0 0 0 0 0 0|0 0 0 0 0 0 0|
2 0
",
    },
];

/// Appends numbers with blanks between them, and what ends them.
fn put_row(out: &mut Vec<u8>, first: u64, others: &[u64], end: &[u8]) -> Result<(), NoMemory> {
    put_dec(out, first)?;
    for n in others {
        put_bytes(out, b" ")?;
        put_dec(out, *n)?;
    }
    put_bytes(out, end)
}

/// Adds an info for blocks of a size, if the stack is held.
fn add_info(peaks: &mut Peaks, info: (u32, u64)) -> Result<(), NoMemory>
    ensures { peaks.new.ledger.stacks ≡ peaks.old.ledger.stacks }
{
    let (stack, size) = info;
    if stack < peaks.ledger().stacks() && peaks.ledger().infos() < 2 {
        peaks.grow_info(stack, size)?;
    }
    Ok(())
}

/// Adds stacks 1 and 2, and the infos.
fn add_infos(peaks: &mut Peaks, infos: &[(u32, u64)]) -> Result<(), NoMemory>
    requires { peaks.old.ledger.stacks ≡ 1 }
{
    peaks.grow_stack()?;
    peaks.grow_stack()?;
    for info in infos {
        add_info(peaks, *info)?;
    }
    Ok(())
}

/// The event of a step, if its info is held.
fn event_of(ledger: &Ledger, step: Step) -> Option<Event>
    ensures { IfSome result (λ event. IsHeld ledger.now event) }
{
    match step {
        Step::Alloc(info) => {
            let (size, stack) = ledger.info(info)?;
            Some(Event::Alloc { info, stack, size })
        }
        Step::Free(info) => {
            let (size, stack) = ledger.info(info)?;
            Some(Event::Free { info, stack, size })
        }
        Step::Clock => Some(Event::Tick { ms: 5 }),
    }
}

/// Takes an event, and appends the live bytes after it, or why it isn't taken. What is told before it comes is the same.
fn put_event<L: Counter>(
    out: &mut Vec<u8>,
    peaks: &mut Peaks,
    event: Event,
    changes: &mut Steps<L>,
) -> Result<(), NoMemory>
    requires held { IsHeld peaks.old.ledger event }
    requires count { peaks.old.ledger.totals.events < 9 }
{
    let foretold = peaks.ledger().check(event);
    let answer = peaks.apply(event, changes);
    match answer {
        Ok(()) => put_dec(out, peaks.ledger().totals().live)?,
        Err(fault) => put_bytes(out, fault.text().as_bytes())?,
    }
    put_bytes(out, if answer == foretold { b"." } else { b"!" })
}

/// Takes the steps, each of a held info, and tells of each.
fn put_steps<L: Counter>(
    out: &mut Vec<u8>,
    peaks: &mut Peaks,
    steps: &[Step],
    changes: &mut Steps<L>,
) -> Result<(), NoMemory> {
    for step in steps {
        if let Some(event) = event_of(peaks.ledger(), *step)
            && peaks.ledger().totals().events < 9
        {
            put_event(out, peaks, event, changes)?;
        }
    }
    put_bytes(out, b"\n")
}

/// Appends the figures and the peak of the whole trace.
fn put_totals(out: &mut Vec<u8>, peaks: &Peaks) -> Result<(), NoMemory> {
    let totals = peaks.ledger().totals();
    let others = [
        totals.calls,
        totals.temporary,
        totals.allocated,
        totals.live,
        totals.blocks,
        peaks.peak_total(),
        peaks.peak_moment(),
    ];
    put_row(out, totals.events, &others, b"\n")
}

/// Appends the figures of a stack that is held, and its share in the peak.
fn put_stack(out: &mut Vec<u8>, peaks: &Peaks, stack: u32) -> Result<(), NoMemory>
    requires { stack < peaks.now.ledger.stacks }
{
    let figures = peaks.ledger().stack(stack);
    let others = [
        figures.blocks,
        figures.calls,
        figures.temporary,
        figures.allocated,
        peaks.peak_of(stack),
        peaks.peak_blocks_of(stack),
    ];
    put_row(out, figures.live, &others, b"|")
}

/// Appends all figures of a trace.
fn put_figures(out: &mut Vec<u8>, peaks: &Peaks) -> Result<(), NoMemory> {
    put_totals(out, peaks)?;
    for stack in 0..peaks.ledger().stacks() {
        put_stack(out, peaks, stack)?;
    }
    put_bytes(out, b"\n")?;
    if peaks.ledger().infos() < 2 {
        return put_bytes(out, b"no infos");
    }
    let calls = peaks.ledger().info_calls(1);
    put_row(out, peaks.ledger().info_calls(0), &[calls], b"\n")
}

/// Takes a trace by peaks without events, and tells of it.
pub(crate) fn put_trace<L: Counter>(
    out: &mut Vec<u8>,
    peaks: &mut Peaks,
    case: &Case,
    changes: &mut Steps<L>,
) -> Result<(), NoMemory>
    requires { peaks.old.ledger.stacks ≡ 1 }
{
    add_infos(peaks, &case.infos)?;
    put_steps(out, peaks, case.steps, changes)?;
    put_figures(out, peaks)
}

/// What is told of a trace is that of the case. The counter is of a ledger that nobody else has.
fn tells<L: Counter>(rt: &impl Abort, alloc: Global, blank: Blank, case: &Case)
    requires name { blank.name ≡ L.name }
    requires parts { blank.parts ≡ L.parts }
    requires some { 0 < blank.parts }
{
    let mut changes = Steps::<L>::new(blank);
    let mut peaks = Peaks::new(alloc).expect(rt, "peaks");
    let mut out = Vec::new(alloc);
    put_trace(&mut out, &mut peaks, case, &mut changes).expect(rt, "memory");
    assert_eq!(rt; out.as_slice(), case.told);
}

#[test]
fn worked_figures(rt: HostRuntime) {
    for case in &CASES {
        tells::<Brand>(&rt, rt.alloc(), Blank::new(1), case);
    }
}
