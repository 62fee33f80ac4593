//! Runs of which each call that can fail fails once: on the store, on standard output and on standard error.

use crate::tests::gates::{NOBODY, Watch};
use crate::tests::transcripts::{Transcript, expect_all};

static FAILURES: [Transcript; 2] = [
    Transcript {
        most_events: 100,
        text: "> a 1 40 500 400
> f 1
> a 2 8 400
! --modules=m s
store 1\nheaprec: m: cannot open\n[3]\nstore 2\nheaprec: m: cannot read\n[3]\nstore 3\nheaprec: m: cannot read\n[3]
store 4\nheaprec: s: cannot open\n[3]\nstore 5\nheaprec: s: cannot read\n[3]\nstore 6\nheaprec: s: cannot read\n[3]
out 1\nheaprec: write failed\n[4]
out 2
v 10500 2\nX heaprec\nm app 1000 0 1f00\nm -\n# thread 0\nt 400 0\nt 500 1\n+ 40 2 10000\n- 10000\n+ 8 1 10040
[4]
err 1
v 10500 2\nX heaprec\nm app 1000 0 1f00\nm -\n# thread 0\nt 400 0\nt 500 1\n+ 40 2 10000\n- 10000\n+ 8 1 10040
[4]
! --summary
out 1\n(usage)\n[4]
err 1\n[4]
err 2\n(usage)\n[4]
! 
out 1\n(usage)\n[4]
err 1\n[4]
err 2\n(usage)\n[4]
",
    },
    Transcript {
        most_events: 100,
        text: "> v 10500 2\n> X heaprec\n> # thread 0\n> t 400 0\n> t 500 1\n> + 40 2 10000\n> # thread 1\n> + 8 1 10040\n> # thread 0\n> - 10000
! --check=s s0 s1
store 1\nheaprec: s0: cannot open\n[3]\nstore 2\nheaprec: s0: cannot read\n[3]\nstore 3\nheaprec: s0: cannot read\n[3]
store 4\nheaprec: s1: cannot open\n[3]\nstore 5\nheaprec: s1: cannot read\n[3]\nstore 6\nheaprec: s1: cannot read\n[3]
store 7\nheaprec: s: cannot open\n[3]\nstore 8\nheaprec: s: cannot read\n[3]\nstore 9\nheaprec: s: cannot read\n[3]
out 1\nheaprec: write failed\n[4]
out 2
a recording of 3 events
[4]
err 1
a recording of 3 events
[4]
",
    },
];

#[test]
fn failures(rt: HostRuntime) {
    expect_all(&rt, rt.alloc(), &FAILURES, &Watch::of(NOBODY));
}
