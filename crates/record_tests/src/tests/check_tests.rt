//! Runs that check a trace.

use crate::tests::checked::{Checked, OF_ONE, OF_TWO};
use crate::tests::gates::{NOBODY, Watch};
use crate::tests::runs::{Run, append_run, sound};
use crate::tests::transcripts::{Transcript, expect_all};
use hp_num::{NoMemory, put_bytes, put_dec};
use order_check::Verdict;
use std::alloc::Global;
use std::process::Abort;
use std::sync::Wait;
use std::thread::Threads;

static TRANSCRIPTS: [Transcript; 2] = [
    // A script in front of the option, and a recording with modules.
    Transcript {
        most_events: 100,
        text: "> v 10500 2\n> X heaprec\n> # thread 0\n> t 400 0\n> t 500 1\n> + 40 2 10000\n> - 10000\n> # thread 1\n> + 8 1 10040
$ s0 --check=s s1
a recording of 3 events
[0]
> v 10500 2\n> X heaprec\n> m app 1000 0 1f00\n> m -\n> # thread 0\n> t 400 0\n> t 500 1\n> + 40 2 10000\n> - 10000
$ --modules=m --check s s0
a recording of 2 events
[0]
> v 10500 2\n> X heaprec\n> # thread 0\n> t 400 0\n> t 500 1\n> + 40 2 10000\n> - 10000
$ --modules=m --check=s s0
heaprec: s:3: not a recording
[1]
",
    },
    // The words of a check.
    Transcript {
        most_events: 100,
        text: "$ --check=s --summary s0
(usage)
[2]
$ --check=- - s0
(usage)
[2]
$ --check=- --modules=- s0
(usage)
[2]
$ --check=s
(usage)
[2]
$ --check=s --check=s s0
(usage)
[2]
$ --check=none s0 s1
heaprec: none: no such file
[3]
$ --check=- s0
heaprec: -: no such file
[3]
$ --check=none s0 absent
heaprec: absent: no such file
[3]
> f 3
$ --check=none s0 s
heaprec: s:1: block not live
[1]
$ --check=m --modules=s1 s0
heaprec: s1:1: bad script line
[1]
$ --check=s0 s0 s1
heaprec: s0:1: not a recording
[1]
> # none
$ --check=s s
heaprec: s:1: not a recording
[1]
$ --check=s -- s0
heaprec: s:1: not a recording
[1]
",
    },
];

/// Appends what a run writes that says so of the file `s`, and its status.
fn put_verdict(verdict: Verdict, want: &mut Vec<u8>) -> Result<(), NoMemory> {
    match verdict {
        Verdict::Yes { events } => {
            put_bytes(want, b"a recording of ")?;
            put_dec(want, events)?;
            put_bytes(want, b" events\n[0]\n")
        }
        Verdict::No { line } => {
            put_bytes(want, b"heaprec: s:")?;
            put_dec(want, line)?;
            put_bytes(want, b": not a recording\n[1]\n")
        }
    }
}

/// A run of these words, where `s` is the trace, says of it what the table says.
fn says<R: Threads + Wait + Sync + Abort>(
    rt: &R,
    alloc: Global,
    words: &str,
    checked: &Checked,
    gate: &Watch,
) {
    let (trace, verdict) = checked;
    let mut got = Vec::new(alloc);
    let mut want = Vec::new(alloc);
    let run = Run {
        setting: sound(100),
        script: trace.as_bytes(),
        words,
    };
    append_run(rt, alloc, &run, gate, &mut got);
    put_verdict(*verdict, &mut want).expect(rt, "memory");
    assert_eq!(rt; got.as_slice(), want.as_slice(), "of {trace}");
}

/// Runs of these words say of each trace what the table says.
fn say<R: Threads + Wait + Sync + Abort>(
    rt: &R,
    alloc: Global,
    words: &str,
    table: &[Checked],
    gate: &Watch,
) {
    for checked in table {
        says(rt, alloc, words, checked, gate);
    }
}

/// A check starts no worker.
#[test]
fn checks(rt: HostRuntime) {
    let gate = Watch::of(NOBODY);
    say(&rt, rt.alloc(), "--check=s s0 s1", &OF_TWO, &gate);
    say(&rt, rt.alloc(), "--check=s r", &OF_ONE, &gate);
    expect_all(&rt, rt.alloc(), &TRANSCRIPTS, &gate);
    assert!(rt; gate.has_counted(0, 0), "a check has a worker");
}
