//! Checks of traces of small scripts, which are held in memory.
ghost use Rattle.std.specs.Prelude.{IsSome};

use crate::tests::checked::{Checked, OF_ONE, OF_TWO};
use crate::tests::script_text::scripts_of;
use hp_outside::{Limits, MemStore, Store};
use order_check::{CheckFault, Verdict, check_order};
use std::alloc::Global;
use std::process::Abort;

/// A trace that is checked against the scripts of two threads under limits, and what is answered. A call of the store fails, the
/// first being that which opens the file, or, for 0, none.
#[derive(Clone, Copy)]
struct Case<'a> {
    trace: &'a str,
    input: u16,
    line: u16,
    failing_call: u64,
    want: Result<Verdict, CheckFault>,
}

/// A recording. Lines may have 20 bytes.
const LIMITED: Case = Case {
    trace: "v 10500 2\nX heaprec\n# thread 0\nt 400 0\nt 500 1\n+ 40 2 10000\n# thread 1\n+ 8 1 10040\n# thread 0\n- 10000\n",
    input: 1000,
    line: 20,
    failing_call: 0,
    want: Ok(Verdict::Yes { events: 3 }),
};

static CASES: [Case; 8] = [
    Case {
        line: 11,
        want: Err(CheckFault::LineTooLong),
        ..LIMITED
    },
    Case {
        line: 12,
        ..LIMITED
    },
    Case {
        trace: "v 10500 2\nX heaprec\n# thread 2\n# thread 200\n",
        line: 11,
        want: Ok(Verdict::No { line: 3 }),
        ..LIMITED
    },
    Case {
        input: 50,
        want: Err(CheckFault::InputTooLong),
        ..LIMITED
    },
    Case {
        trace: "v 10500 2\nX heaprec\n+ 1 1 1\n",
        input: 25,
        want: Err(CheckFault::InputTooLong),
        ..LIMITED
    },
    Case {
        failing_call: 2,
        want: Err(CheckFault::ReadFailed),
        ..LIMITED
    },
    Case {
        failing_call: 17,
        want: Err(CheckFault::ReadFailed),
        ..LIMITED
    },
    Case {
        trace: "v 10500 3\nX heaprec\n# thread 0\n",
        failing_call: 4,
        want: Ok(Verdict::No { line: 1 }),
        ..LIMITED
    },
];

/// The scripts of the tables.
const TWO: &[u8] = b"a 1 40 500 400\nf 1|a 1 8 400";

const ONE: &[u8] = b"a 1 10 1\nr 1 20 1\nr 1 20 2";

/// Two scripts without turns.
static OF_NONE: [Checked; 1] = [("v 10500 2\nX heaprec\n", Verdict::Yes { events: 0 })];

/// A store that has the trace as its current file, and gives pieces of so many bytes.
fn store_of(rt: &impl Abort, alloc: Global, case: &Case, piece: u16) -> MemStore
    ensures { IsSome result.store.left }
{
    let mut store = MemStore::new(alloc, usize::from(piece.max(1)));
    store.add("t", case.trace.as_bytes()).expect(rt, "a trace");
    store.fail_at(case.failing_call).expect(rt, "memory");
    store.open("t").expect(rt, "an open trace");
    store
}

/// What is said of a trace, read in pieces of so many bytes, is that of the case.
fn is_answered(rt: &impl Abort, alloc: Global, scripts: &[u8], case: &Case, piece: u16) {
    let limits = Limits {
        input: u64::from(case.input),
        line: u32::from(case.line.max(1)),
        order: 300,
    };
    let job = scripts_of(rt, alloc, scripts);
    let mut store = store_of(rt, alloc, case, piece);
    let answer = check_order(alloc, job, &limits, &mut store);
    assert_eq!(rt; answer, case.want);
}

/// What is said of traces, however they are read, is what the table says.
fn are_answered(rt: &impl Abort, alloc: Global, scripts: &[u8], table: &[Checked]) {
    for (trace, verdict) in table {
        let case = Case {
            trace,
            input: 1000,
            line: 1000,
            failing_call: 0,
            want: Ok(*verdict),
        };
        is_answered(rt, alloc, scripts, &case, 1);
        is_answered(rt, alloc, scripts, &case, 7);
    }
}

#[test]
fn verdicts(rt: HostRuntime) {
    are_answered(&rt, rt.alloc(), TWO, &OF_TWO);
    are_answered(&rt, rt.alloc(), ONE, &OF_ONE);
    are_answered(&rt, rt.alloc(), b"|", &OF_NONE);
    for case in &CASES {
        is_answered(&rt, rt.alloc(), TWO, case, 7);
    }
}
