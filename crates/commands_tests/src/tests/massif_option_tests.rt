//! `massif` in each unit, and at both ends of the options' ranges.

use crate::tests::transcript::{Transcript, play_all};

const UNITS: &str = "$ massif --time-unit=e e
desc: heapsuite massif cmd: demo time_unit: e
snapshot=0 time=0 mem_heap_B=0 mem_heap_extra_B=0 mem_stacks_B=0 heap_tree=empty
snapshot=1 time=1 mem_heap_B=100 mem_heap_extra_B=20 mem_stacks_B=0 heap_tree=empty
snapshot=2 time=1 mem_heap_B=100 mem_heap_extra_B=20 mem_stacks_B=0 heap_tree=peak
n1: 100 (heap allocation functions) malloc/new/new[], --alloc-fns, etc.\n n1: 100 0x500: f (a.c:10)\n  n0: 100 0x400: main (a.c:20)
snapshot=3 time=2 mem_heap_B=0 mem_heap_extra_B=0 mem_stacks_B=0 heap_tree=empty
snapshot=4 time=3 mem_heap_B=100 mem_heap_extra_B=20 mem_stacks_B=0 heap_tree=empty
[0]
$ massif --time-unit ms e
desc: heapsuite massif cmd: demo time_unit: ms
snapshot=0 time=0 mem_heap_B=0 mem_heap_extra_B=0 mem_stacks_B=0 heap_tree=empty
snapshot=1 time=0 mem_heap_B=100 mem_heap_extra_B=20 mem_stacks_B=0 heap_tree=empty
snapshot=2 time=0 mem_heap_B=100 mem_heap_extra_B=20 mem_stacks_B=0 heap_tree=peak
n1: 100 (heap allocation functions) malloc/new/new[], --alloc-fns, etc.\n n1: 100 0x500: f (a.c:10)\n  n0: 100 0x400: main (a.c:20)
snapshot=3 time=5 mem_heap_B=0 mem_heap_extra_B=0 mem_stacks_B=0 heap_tree=empty
snapshot=4 time=5 mem_heap_B=100 mem_heap_extra_B=20 mem_stacks_B=0 heap_tree=empty
[0]
";

/// Each option at the least value of its range, and then at the greatest.
const RANGES: &str =
    "$ massif --threshold=0 --peak-inaccuracy=0 --detailed-freq=1 --max-snapshots=10 --depth=1 --heap-admin=0 --alignment=1 --time-unit=B e
desc: heapsuite massif cmd: demo time_unit: B
snapshot=0 time=0 mem_heap_B=0 mem_heap_extra_B=0 mem_stacks_B=0 heap_tree=detailed
n0: 0 (heap allocation functions) malloc/new/new[], --alloc-fns, etc.
snapshot=1 time=100 mem_heap_B=100 mem_heap_extra_B=0 mem_stacks_B=0 heap_tree=detailed
n1: 100 (heap allocation functions) malloc/new/new[], --alloc-fns, etc.\n n0: 100 0x500: f (a.c:10)
snapshot=2 time=100 mem_heap_B=100 mem_heap_extra_B=0 mem_stacks_B=0 heap_tree=peak
n1: 100 (heap allocation functions) malloc/new/new[], --alloc-fns, etc.\n n0: 100 0x500: f (a.c:10)
snapshot=3 time=200 mem_heap_B=0 mem_heap_extra_B=0 mem_stacks_B=0 heap_tree=detailed
n0: 0 (heap allocation functions) malloc/new/new[], --alloc-fns, etc.
snapshot=4 time=300 mem_heap_B=100 mem_heap_extra_B=0 mem_stacks_B=0 heap_tree=detailed
n1: 100 (heap allocation functions) malloc/new/new[], --alloc-fns, etc.\n n0: 100 0x400: main (a.c:20)
[0]
$ massif --threshold=100 --peak-inaccuracy=100.00 --detailed-freq=1000000 --max-snapshots=1000 --depth=200 --heap-admin=1024 --alignment=4096 e
desc: heapsuite massif cmd: demo time_unit: B
snapshot=0 time=0 mem_heap_B=0 mem_heap_extra_B=0 mem_stacks_B=0 heap_tree=empty
snapshot=1 time=5120 mem_heap_B=100 mem_heap_extra_B=5020 mem_stacks_B=0 heap_tree=empty
snapshot=2 time=5120 mem_heap_B=100 mem_heap_extra_B=5020 mem_stacks_B=0 heap_tree=peak
n1: 100 (heap allocation functions) malloc/new/new[], --alloc-fns, etc.\n n0: 100 in 1 place, below massif's threshold (100.00%)
snapshot=3 time=10240 mem_heap_B=0 mem_heap_extra_B=0 mem_stacks_B=0 heap_tree=empty
snapshot=4 time=15360 mem_heap_B=100 mem_heap_extra_B=5020 mem_stacks_B=0 heap_tree=empty
[0]
";

static RUNS: [Transcript; 2] = [
    ("massif by units", "", UNITS),
    ("massif by ranges", "", RANGES),
];

#[test]
fn massif_options(rt: HostRuntime) {
    play_all(&rt, rt.alloc(), &RUNS);
}
