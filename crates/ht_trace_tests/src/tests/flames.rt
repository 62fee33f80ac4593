//! The flame stacks of a worked trace, by each cost.
ghost use Rattle.std.specs.Prelude.{◌≡◌, ◌<◌};

use crate::tests::figures::{CASES, put_trace};
use crate::tests::lines::{WORKED, read_lines};
use hp_num::NoMemory;
use ht_print::{FlameCost, put_flame};
use ht_trace::Tables;
use live_ledger::Steps;
use peak_costs::Peaks;
use std::alloc::Global;
use std::marker::Brand;
use std::process::Abort;
use std::sync::ledger::{Blank, Ledger as Counter};

/// A cost, and the flame stacks of the worked trace by it.
static FLAMES: [(FlameCost, &[u8]); 4] = [
    (
        FlameCost::Allocations,
        b"main (a.c:20) 1\nmain (a.c:20);f (a.c:10) 1\n",
    ),
    (FlameCost::Temporary, b"main (a.c:20);f (a.c:10) 1\n"),
    (FlameCost::Leaked, b"main (a.c:20) 100\n"),
    (FlameCost::Peak, b"main (a.c:20);f (a.c:10) 100\n"),
];

/// The flame stacks of a trace by a cost are these.
fn flames_are(
    rt: &impl Abort,
    alloc: Global,
    tables: &Tables,
    peaks: &Peaks,
    flames: &(FlameCost, &[u8]),
) {
    let (cost, want) = flames;
    let mut out = Vec::new(alloc);
    assert_eq!(rt; peaks.ledger().stacks(), tables.stacks());
    put_flame(alloc, *cost, tables, peaks, &mut out).expect(rt, "memory");
    assert_eq!(rt; out.as_slice(), *want);
}

/// The peaks of the worked trace, whose events are those of a case. The counter is of a ledger that nobody else has.
fn worked_peaks<L: Counter>(alloc: Global, blank: Blank) -> Result<Peaks, NoMemory>
    requires name { blank.name ≡ L.name }
    requires parts { blank.parts ≡ L.parts }
    requires some { 0 < blank.parts }
{
    let mut changes = Steps::<L>::new(blank);
    let mut peaks = Peaks::new(alloc)?;
    let mut told = Vec::new(alloc);
    put_trace(&mut told, &mut peaks, &CASES[2], &mut changes)?;
    Ok(peaks)
}

#[test]
fn flames_by_each_cost(rt: HostRuntime) {
    let mut tables = Tables::new(rt.alloc());
    read_lines(&rt, &mut tables, WORKED).expect(&rt, "a trace");
    let peaks = worked_peaks::<Brand>(rt.alloc(), Blank::new(1)).expect(&rt, "peaks");
    for flames in &FLAMES {
        flames_are(&rt, rt.alloc(), &tables, &peaks, flames);
    }
    drop(tables);
    drop(peaks);
}
