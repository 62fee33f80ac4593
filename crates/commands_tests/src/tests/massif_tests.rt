//! `massif` over the worked trace, one that offers peaks, and one of stacks that are called, by lists of functions, and its refusals.

use crate::tests::transcript::{Transcript, play_all};

const PROFILES: &str = "$ massif e
(profile)
[0]
> v 10500 2
> a 64 0\n> a 20 0
> + 0\n> + 1
$ massif t
desc: heapsuite massif cmd: (none) time_unit: B
snapshot=0 time=0 mem_heap_B=0 mem_heap_extra_B=0 mem_stacks_B=0 heap_tree=empty
snapshot=1 time=120 mem_heap_B=100 mem_heap_extra_B=20 mem_stacks_B=0 heap_tree=empty
snapshot=2 time=160 mem_heap_B=132 mem_heap_extra_B=28 mem_stacks_B=0 heap_tree=empty
[0]
";

/// A peak must pass the last one by one percent: 1010 doesn't pass 1000, and 1011 does. Then there is one block of the most bytes, whose
/// time is the number of events.
const PEAK_OFFERS: &str = "> v 10500 2
> a 3e8 0
> a a 0
> a 1 0
> + 0
> - 0
> + 0
> + 1
> - 1
> + 1
> + 2
> - 2
$ massif --heap-admin=0 --alignment=1 t
desc: heapsuite massif cmd: (none) time_unit: B
snapshot=0 time=0 mem_heap_B=0 mem_heap_extra_B=0 mem_stacks_B=0 heap_tree=empty
snapshot=1 time=1000 mem_heap_B=1000 mem_heap_extra_B=0 mem_stacks_B=0 heap_tree=empty
snapshot=2 time=1000 mem_heap_B=1000 mem_heap_extra_B=0 mem_stacks_B=0 heap_tree=empty
snapshot=3 time=2000 mem_heap_B=0 mem_heap_extra_B=0 mem_stacks_B=0 heap_tree=empty
snapshot=4 time=3000 mem_heap_B=1000 mem_heap_extra_B=0 mem_stacks_B=0 heap_tree=empty
snapshot=5 time=3010 mem_heap_B=1010 mem_heap_extra_B=0 mem_stacks_B=0 heap_tree=empty
snapshot=6 time=3020 mem_heap_B=1000 mem_heap_extra_B=0 mem_stacks_B=0 heap_tree=empty
snapshot=7 time=3030 mem_heap_B=1010 mem_heap_extra_B=0 mem_stacks_B=0 heap_tree=empty
snapshot=8 time=3031 mem_heap_B=1011 mem_heap_extra_B=0 mem_stacks_B=0 heap_tree=empty
snapshot=9 time=3031 mem_heap_B=1011 mem_heap_extra_B=0 mem_stacks_B=0 heap_tree=peak
n1: 1011 (heap allocation functions) malloc/new/new[], --alloc-fns, etc.\n n0: 1011 (no stack)
snapshot=10 time=3032 mem_heap_B=1010 mem_heap_extra_B=0 mem_stacks_B=0 heap_tree=empty
[0]
> v 10500 2
> a 4000000000000000 0
> + 0
> - 0
$ massif --time-unit=e --heap-admin=0 --alignment=1 t
desc: heapsuite massif cmd: (none) time_unit: e
snapshot=0 time=0 mem_heap_B=0 mem_heap_extra_B=0 mem_stacks_B=0 heap_tree=empty
snapshot=1 time=1 mem_heap_B=4611686018427387904 mem_heap_extra_B=0 mem_stacks_B=0 heap_tree=empty
snapshot=2 time=1 mem_heap_B=4611686018427387904 mem_heap_extra_B=0 mem_stacks_B=0 heap_tree=peak
n1: 4611686018427387904 (heap allocation functions) malloc/new/new[], --alloc-fns, etc.\n n0: 4611686018427387904 (no stack)
snapshot=3 time=2 mem_heap_B=0 mem_heap_extra_B=0 mem_stacks_B=0 heap_tree=empty
[0]
";

/// Empty pieces of a list are no names, and a part of a name is none. A name behind the front of a stack takes nothing off it, and a
/// stack all of whose frames are taken off isn't ignored.
const FUNCTIONS: &str = "$ massif --alloc-fns=f e
desc: heapsuite massif cmd: demo time_unit: B
snapshot=0 time=0 mem_heap_B=0 mem_heap_extra_B=0 mem_stacks_B=0 heap_tree=empty
snapshot=1 time=120 mem_heap_B=100 mem_heap_extra_B=20 mem_stacks_B=0 heap_tree=empty
snapshot=2 time=120 mem_heap_B=100 mem_heap_extra_B=20 mem_stacks_B=0 heap_tree=peak
n1: 100 (heap allocation functions) malloc/new/new[], --alloc-fns, etc.\n n0: 100 0x400: main (a.c:20)
snapshot=3 time=240 mem_heap_B=0 mem_heap_extra_B=0 mem_stacks_B=0 heap_tree=empty
snapshot=4 time=360 mem_heap_B=100 mem_heap_extra_B=20 mem_stacks_B=0 heap_tree=empty
[0]
$ massif --ignore-fns=f e
desc: heapsuite massif cmd: demo time_unit: B
snapshot=0 time=0 mem_heap_B=0 mem_heap_extra_B=0 mem_stacks_B=0 heap_tree=empty
snapshot=1 time=120 mem_heap_B=100 mem_heap_extra_B=20 mem_stacks_B=0 heap_tree=empty
[0]
$ massif --ignore-fns=;f; e
desc: heapsuite massif cmd: demo time_unit: B
snapshot=0 time=0 mem_heap_B=0 mem_heap_extra_B=0 mem_stacks_B=0 heap_tree=empty
snapshot=1 time=120 mem_heap_B=100 mem_heap_extra_B=20 mem_stacks_B=0 heap_tree=empty
[0]
$ massif --alloc-fns=f --ignore-fns=main e
desc: heapsuite massif cmd: demo time_unit: B
snapshot=0 time=0 mem_heap_B=0 mem_heap_extra_B=0 mem_stacks_B=0 heap_tree=empty
[0]
$ massif --alloc-fns=ff;;;m --ignore-fns=;; e
(profile)
[0]
$ massif --alloc-fns=main --ignore-fns=main e
(profile)
[0]
";

/// A trace of two stacks, of which one is called from the other: both have a block at the peak.
const CALLED: &str = "v 10500 2
s main
s f
s a.c
i 400 0 1 3 14
i 500 0 2 3 a
t 1 0
t 2 1
a 64 2
a 64 1
+ 0
+ 1
- 0
";

/// The whole tree, the one of fronts of one place, and the one of no front that is large enough.
const OF_CALLED: &str = "$ massif t
desc: heapsuite massif cmd: (none) time_unit: B
snapshot=0 time=0 mem_heap_B=0 mem_heap_extra_B=0 mem_stacks_B=0 heap_tree=empty
snapshot=1 time=120 mem_heap_B=100 mem_heap_extra_B=20 mem_stacks_B=0 heap_tree=empty
snapshot=2 time=240 mem_heap_B=200 mem_heap_extra_B=40 mem_stacks_B=0 heap_tree=empty
snapshot=3 time=240 mem_heap_B=200 mem_heap_extra_B=40 mem_stacks_B=0 heap_tree=peak
n2: 200 (heap allocation functions) malloc/new/new[], --alloc-fns, etc.\n n0: 100 0x400: main (a.c:20)\n n1: 100 0x500: f (a.c:10)\n  n0: 100 0x400: main (a.c:20)
snapshot=4 time=360 mem_heap_B=100 mem_heap_extra_B=20 mem_stacks_B=0 heap_tree=empty
[0]
$ massif --depth=1 t
desc: heapsuite massif cmd: (none) time_unit: B
snapshot=0 time=0 mem_heap_B=0 mem_heap_extra_B=0 mem_stacks_B=0 heap_tree=empty
snapshot=1 time=120 mem_heap_B=100 mem_heap_extra_B=20 mem_stacks_B=0 heap_tree=empty
snapshot=2 time=240 mem_heap_B=200 mem_heap_extra_B=40 mem_stacks_B=0 heap_tree=empty
snapshot=3 time=240 mem_heap_B=200 mem_heap_extra_B=40 mem_stacks_B=0 heap_tree=peak
n2: 200 (heap allocation functions) malloc/new/new[], --alloc-fns, etc.\n n0: 100 0x400: main (a.c:20)\n n0: 100 0x500: f (a.c:10)
snapshot=4 time=360 mem_heap_B=100 mem_heap_extra_B=20 mem_stacks_B=0 heap_tree=empty
[0]
$ massif --threshold=100 t
desc: heapsuite massif cmd: (none) time_unit: B
snapshot=0 time=0 mem_heap_B=0 mem_heap_extra_B=0 mem_stacks_B=0 heap_tree=empty
snapshot=1 time=120 mem_heap_B=100 mem_heap_extra_B=20 mem_stacks_B=0 heap_tree=empty
snapshot=2 time=240 mem_heap_B=200 mem_heap_extra_B=40 mem_stacks_B=0 heap_tree=empty
snapshot=3 time=240 mem_heap_B=200 mem_heap_extra_B=40 mem_stacks_B=0 heap_tree=peak
n1: 200 (heap allocation functions) malloc/new/new[], --alloc-fns, etc.\n n0: 200 in 2 places, all below massif's threshold (100.00%)
snapshot=4 time=360 mem_heap_B=100 mem_heap_extra_B=20 mem_stacks_B=0 heap_tree=empty
[0]
";

/// A block that is too large with what the heap adds to it is refused here alone.
const REFUSALS: &str = "> v 10500 2
> a 64 0
> - 0
$ massif t
heapsuite: t:3: free of nothing
[1]
> v 10500 2
> a 64
$ massif t
heapsuite: t:2: missing field
[1]
$ massif t
heapsuite: t:1: no version line
[1]
> v 10500 2
> a 3ffffffffffffff6 0
> + 0
$ massif t
heapsuite: t:3: too many bytes allocated
[6]
> v 10500 2
> i 400 0
> s f
> i 400 0 1
$ massif t
desc: heapsuite massif cmd: (none) time_unit: B
snapshot=0 time=0 mem_heap_B=0 mem_heap_extra_B=0 mem_stacks_B=0 heap_tree=empty
[0]
$ massif absent
heapsuite: absent: no such file
[3]
";

static RUNS: [Transcript; 5] = [
    ("massif", "", PROFILES),
    ("massif at peaks", "", PEAK_OFFERS),
    ("massif by functions", "", FUNCTIONS),
    ("massif of called stacks", CALLED, OF_CALLED),
    ("massif refuses", "", REFUSALS),
];

#[test]
fn massif_profiles(rt: HostRuntime) {
    play_all(&rt, rt.alloc(), &RUNS);
}
