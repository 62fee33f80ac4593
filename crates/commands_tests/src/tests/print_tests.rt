//! `print` over worked traces: what its options show, the order of what it shows, and leaks that are suppressed.

use crate::tests::transcript::{Transcript, WORKED, play_all};

/// The last trace has a stack with all of the peak and one with more at another moment, which is of no account.
const REPORTS: &str = "$ print e
MOST CALLS TO ALLOCATION FUNCTIONS
1 calls (50.00%) at main (a.c:20)
  1 calls (50.00%) in stack 1
1 calls (50.00%) at f (a.c:10)
  1 calls (50.00%) in stack 2
    main (a.c:20)

PEAK MEMORY CONSUMERS
100 bytes (100.00%) at f (a.c:10)
  100 bytes (100.00%) in stack 2
    main (a.c:20)

MEMORY LEAKS
100 bytes (100.00%) at main (a.c:20)
  100 bytes (100.00%) in stack 1

MOST TEMPORARY ALLOCATIONS
1 temporary (100.00%) at f (a.c:10)
  1 temporary (100.00%) in stack 2
    main (a.c:20)

events: 3 calls: 2 temporary: 1 allocated: 200 peak: 100 at event 1 leaked: 100 in 1 blocks
[0]
$ print --merge-backtraces=0 --print-leaks=0 --print-temporary 0 e
MOST CALLS TO ALLOCATION FUNCTIONS
1 calls (50.00%) at main (a.c:20) in stack 1
1 calls (50.00%) at f (a.c:10) in stack 2
  main (a.c:20)

PEAK MEMORY CONSUMERS
100 bytes (100.00%) at f (a.c:10) in stack 2
  main (a.c:20)

events: 3 calls: 2 temporary: 1 allocated: 200 peak: 100 at event 1 leaked: 100 in 1 blocks
[0]
$ print --merge-backtraces=0 --peak-limit=1 --print-peaks=0 --print-leaks=0 --print-temporary=0 e
MOST CALLS TO ALLOCATION FUNCTIONS
1 calls (50.00%) at main (a.c:20) in stack 1
more stacks: 1

events: 3 calls: 2 temporary: 1 allocated: 200 peak: 100 at event 1 leaked: 100 in 1 blocks
[0]
$ print --peak-limit=1 --sub-peak-limit=0 --print-peaks=0 --print-leaks=0 --print-temporary=0 e
MOST CALLS TO ALLOCATION FUNCTIONS
1 calls (50.00%) at main (a.c:20)
  more stacks: 1
more places: 1

events: 3 calls: 2 temporary: 1 allocated: 200 peak: 100 at event 1 leaked: 100 in 1 blocks
[0]
$ print --histogram=1 --print-allocators=0 --print-peaks=0 --print-leaks=0 --print-temporary=0 e
SIZE HISTOGRAM
0 to 8: 0 calls\n9 to 16: 0 calls\n17 to 32: 0 calls
33 to 64: 0 calls\n65 to 128: 2 calls\n129 to 256: 0 calls
257 to 512: 0 calls\n513 to 1024: 0 calls\n1025 and more: 0 calls

events: 3 calls: 2 temporary: 1 allocated: 200 peak: 100 at event 1 leaked: 100 in 1 blocks
[0]
> # a comment
> f (
$ print --suppressions=t --print-allocators=0 --print-peaks=0 --print-temporary=0 e
MEMORY LEAKS
100 bytes (100.00%) at main (a.c:20)
  100 bytes (100.00%) in stack 1

events: 3 calls: 2 temporary: 1 allocated: 200 peak: 100 at event 1 leaked: 100 in 1 blocks
[0]
> v 10500 2
> t 0 0
> t 0 0
> a 64 1
> a 32 2
> + 1\n> + 1\n> - 1\n> + 0\n> - 0\n> + 1\n> + 1
$ print --print-allocators=0 t
PEAK MEMORY CONSUMERS
150 bytes (100.00%) at ??
  100 bytes (66.67%) in stack 1
  50 bytes (33.33%) in stack 2

MEMORY LEAKS
150 bytes (100.00%) at ??
  150 bytes (100.00%) in stack 2

MOST TEMPORARY ALLOCATIONS
2 temporary (100.00%) at ??
  1 temporary (50.00%) in stack 1
  1 temporary (50.00%) in stack 2

events: 7 calls: 5 temporary: 2 allocated: 300 peak: 150 at event 4 leaked: 150 in 3 blocks
[0]
";

/// The reports of two stacks of one place: the greatest total is reached first while both have live bytes, and each frees once what it
/// has just allocated. Then there are stacks of which two are suppressed, and sizes at the edges of the ranges; and no lines.
const PLACES: &str = "> v 10500 2
> s f
> i 1 0 1
> i 2 0 1
> t 1 0
> t 2 0
> a 64 1
> a 32 2
> + 1\n> + 1\n> - 1\n> + 0\n> - 0\n> + 1\n> + 1
$ print t
MOST CALLS TO ALLOCATION FUNCTIONS
5 calls (100.00%) at f
  4 calls (80.00%) in stack 2
  1 calls (20.00%) in stack 1

PEAK MEMORY CONSUMERS
150 bytes (100.00%) at f
  100 bytes (66.67%) in stack 1
  50 bytes (33.33%) in stack 2

MEMORY LEAKS
150 bytes (100.00%) at f
  150 bytes (100.00%) in stack 2

MOST TEMPORARY ALLOCATIONS
2 temporary (100.00%) at f
  1 temporary (50.00%) in stack 1
  1 temporary (50.00%) in stack 2

events: 7 calls: 5 temporary: 2 allocated: 300 peak: 150 at event 4 leaked: 150 in 3 blocks
[0]
> v 10500 2
> s main
> s f
> i 1 0 1
> i 2 0 2
> t 1 0
> t 2 1
> t 2 0
> S leak:ain
> a 10 1
> a 9 2
> a 8 3
> + 0
> + 1
> + 2
$ print --merge-backtraces=0 --histogram=1 --print-allocators=0 --print-peaks=0 --print-temporary=0 t
MEMORY LEAKS
8 bytes (100.00%) at f in stack 3
suppressed: 25 bytes

SIZE HISTOGRAM
0 to 8: 1 calls\n9 to 16: 2 calls\n17 to 32: 0 calls
33 to 64: 0 calls\n65 to 128: 0 calls\n129 to 256: 0 calls
257 to 512: 0 calls\n513 to 1024: 0 calls\n1025 and more: 0 calls

events: 3 calls: 3 temporary: 0 allocated: 33 peak: 33 at event 3 leaked: 33 in 3 blocks
[0]
> v 10500 2
$ print --merge-backtraces=0 --histogram=1 --print-allocators=0 --print-peaks=0 --print-temporary=0 t
MEMORY LEAKS
(none)

SIZE HISTOGRAM
0 to 8: 0 calls\n9 to 16: 0 calls\n17 to 32: 0 calls
33 to 64: 0 calls\n65 to 128: 0 calls\n129 to 256: 0 calls
257 to 512: 0 calls\n513 to 1024: 0 calls\n1025 and more: 0 calls

events: 0 calls: 0 temporary: 0 allocated: 0 peak: 0 at event 0 leaked: 0 in 0 blocks
[0]
";

const SUPPRESSED: &str = "> S leak:main (
$ print --print-allocators=0 --print-peaks=0 --print-temporary=0 t
MEMORY LEAKS
(none)
suppressed: 100 bytes

events: 3 calls: 2 temporary: 1 allocated: 200 peak: 100 at event 1 leaked: 100 in 1 blocks
[0]
";

static RUNS: [Transcript; 3] = [
    ("print", "", REPORTS),
    ("print of places", "", PLACES),
    ("print without leaks", WORKED, SUPPRESSED),
];

#[test]
fn reports(rt: HostRuntime) {
    play_all(&rt, rt.alloc(), &RUNS);
}
