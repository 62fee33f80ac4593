//! `flame` over a worked trace of two nested calls, by each cost.

use crate::tests::transcript::{Transcript, play_all};

const COSTS: &str = "$ flame e
main (a.c:20) 1
main (a.c:20);f (a.c:10) 1
[0]
$ flame --flamegraph-cost-type peak e
main (a.c:20);f (a.c:10) 100
[0]
$ flame e --flamegraph-cost-type=leaked
main (a.c:20) 100
[0]
$ flame --flamegraph-cost-type=temporary -- e
main (a.c:20);f (a.c:10) 1
[0]
";

static RUNS: [Transcript; 1] = [("flame", "", COSTS)];

#[test]
fn stacks_by_each_cost(rt: HostRuntime) {
    play_all(&rt, rt.alloc(), &RUNS);
}
