//! `convert` over worked DHAT profiles and Massif files, its words, and what stands against a conversion.

use crate::tests::transcript::{DEMO, MASSIF, SECOND_FILE, Transcript, play_all};

const DHAT: &str = "$ convert t
0x400: main (a.c:20) 100
0x400: main (a.c:20);0x500: f (a.c:10) 100
[0]
$ convert --key=eb --snapshot=7 t
0x400: main (a.c:20) 100
[0]
$ convert --from=dhat --to folded --key gb -- t
0x400: main (a.c:20);0x500: f (a.c:10) 100
[0]
$ convert --key=tl t
0x400: main (a.c:20);0x500: f (a.c:10) 1
[0]
$ convert --key=rb t
heapsuite: t: no figures for rb
[1]
$ convert --to=massif t
(converted)
[0]
$ convert --to=massif --key=rb t
(converted)
[0]
$ convert n
heapsuite: n: no such file
[3]
";

/// A profile with one list twice, one with a semicolon, one of no text, and one whose bytes sum to 0. The time at its peak is
/// after its end.
const PROFILE_OF_LISTS: &str =
    "{\"dhatFileVersion\":2,\"mode\":\"heap\",\"verb\":\"Allocated\",\"bklt\":true,\"bkacc\":true,\"tu\":\"instrs\",\"Mtu\":\"Minstr\",\"cmd\":\"\",\"pid\":7,\"te\":100,\"tg\":101,\"pps\":[{\"tb\":0,\"tbk\":1,\"tl\":0,\"mb\":0,\"mbk\":1,\"gb\":0,\"gbk\":0,\"eb\":0,\"ebk\":0,\"rb\":3,\"wb\":0,\"fs\":[2]},{\"tb\":5,\"tbk\":1,\"tl\":0,\"mb\":5,\"mbk\":1,\"gb\":5,\"gbk\":1,\"eb\":0,\"ebk\":0,\"rb\":0,\"wb\":0,\"fs\":[2,1]},{\"tb\":7,\"tbk\":1,\"tl\":0,\"mb\":7,\"mbk\":1,\"gb\":7,\"gbk\":1,\"eb\":0,\"ebk\":0,\"rb\":0,\"wb\":0,\"fs\":[]},{\"tb\":1,\"tbk\":1,\"tl\":0,\"mb\":1,\"mbk\":1,\"gb\":1,\"gbk\":1,\"eb\":0,\"ebk\":0,\"rb\":4,\"wb\":0,\"fs\":[2,1]}],\"ftbl\":[\"[root]\",\"main\",\" a;b\"]}\n";

const LISTS: &str = "$ convert t
main;?a:b 6
(no stack) 7
[0]
$ convert --key=rb t
?a:b 3
main;?a:b 4
[0]
$ convert --to=massif t
desc: heapsuite convert cmd: (none) time_unit: i
snapshot=0 time=100 mem_heap_B=13 mem_heap_extra_B=0 mem_stacks_B=0 heap_tree=peak
n1: 13 (heap allocation functions) malloc/new/new[], --alloc-fns, etc.
 n1: 6 ?a;b
  n0: 6 main
snapshot=1 time=100 mem_heap_B=0 mem_heap_extra_B=0 mem_stacks_B=0 heap_tree=detailed
n0: 0 (heap allocation functions) malloc/new/new[], --alloc-fns, etc.
[0]
";

const DOCUMENTS: &str =
    "> {\"dhatFileVersion\":2,\"mode\":\"heap\",\"verb\":\"Allocated\",\"bklt\":false,\"bkacc\":false,\"tu\":\"instrs\",\"Mtu\":\"Minstr\",\"cmd\":\"./a\",\"pid\":7,\"te\":100,\"pps\":[{\"tb\":10,\"tbk\":1,\"fs\":[1]},{\"tb\":4611686018427387904,\"tbk\":1,\"fs\":[]}],\"ftbl\":[\"[root]\",\"main\"]}
$ convert t
heapsuite: t: figures too large
[6]
> {\"dhatFileVersion\":2,\"mode\":\"heap\",\"verb\":\"Allocated\",\"bklt\":false,\"bkacc\":false,\"tu\":\"instrs\",\"Mtu\":\"Minstr\",\"cmd\":\"./a\",\"pid\":7,\"te\":4611686018427387905,\"pps\":[],\"ftbl\":[]}
$ convert --to=massif t
heapsuite: t: no figures for gb
[1]
> {\"dhatFileVersion\":2,\"mode\":\"heap\",\"verb\":\"Allocated\",\"bklt\":true,\"bkacc\":false,\"tu\":\"instrs\",\"Mtu\":\"Minstr\",\"cmd\":\"./a\",\"pid\":7,\"te\":4611686018427387905,\"pps\":[],\"ftbl\":[]}
$ convert --to=massif t
heapsuite: t: figures too large
[6]
> {\"dhatFileVersion\":2,\"mode\":\"heap\",\"verb\":\"Allocated\",\"bklt\":true,\"bkacc\":false,\"tu\":\"instrs\",\"Mtu\":\"Minstr\",\"cmd\":\"./a\",\"pid\":7,\"te\":4611686018427387905,\"ftbl\":[]}
$ convert --key=rb t
heapsuite: t: missing key pps
[1]
> {
$ convert --to=massif t
heapsuite: t: not JSON
[1]
> cmd: a
$ convert t
heapsuite: t: not JSON
[1]
";

/// A profile with equal lists, a point without frames, a semicolon, and figures that are too large.
const PLACES: &str =
    "{\"dhatFileVersion\":2,\"mode\":\"copy\",\"verb\":\"Copied\",\"bklt\":false,\"bkacc\":false,\"tu\":\"instrs\",\"Mtu\":\"Minstr\",\"cmd\":\"\",\"pid\":7,\"te\":9,\"ftbl\":[\"[root]\",\"a\",\"b;c\",\" c\\n\",\"\"],\"pps\":[{\"tb\":0,\"tbk\":0,\"fs\":[2,1]},{\"tb\":40,\"tbk\":4611686018427387904,\"fs\":[1]},{\"tb\":0,\"tbk\":1,\"fs\":[3]},{\"tb\":3,\"tbk\":0,\"fs\":[2,1]},{\"tb\":2,\"tbk\":0,\"fs\":[]},{\"tb\":10,\"tbk\":0,\"fs\":[1]}]}\n";

/// Lists come by the first point that has one and a figure other than 0.
const OF_PLACES: &str = "$ convert t
a 50
a;b:c 3
(no stack) 2
[0]
$ convert --key=gb t
heapsuite: t: no figures for gb
[1]
$ convert --key=tbk t
heapsuite: t: figures too large
[6]
$ convert --to=massif t
heapsuite: t: no figures for gb
[1]
";

/// A profile with a stack that is live at the peak and at the end.
const LASTING: &str =
    "{\"dhatFileVersion\":2,\"mode\":\"heap\",\"verb\":\"Allocated\",\"bklt\":true,\"bkacc\":false,\"tu\":\"instrs\",\"Mtu\":\"Minstr\",\"cmd\":\"demo\",\"pid\":7,\"te\":30,\"tg\":10,\"ftbl\":[\"[root]\",\"0x400: main (a.c:20)\",\"0x500: f (a.c:10)\"],\"pps\":[{\"tb\":64,\"tbk\":2,\"tl\":40,\"mb\":64,\"mbk\":2,\"gb\":64,\"gbk\":2,\"eb\":64,\"ebk\":2,\"fs\":[2,1]}]}\n";

const OF_LASTING: &str = "$ convert --to=massif t
desc: heapsuite convert cmd: demo time_unit: i
snapshot=0 time=10 mem_heap_B=64 mem_heap_extra_B=0 mem_stacks_B=0 heap_tree=peak
n1: 64 (heap allocation functions) malloc/new/new[], --alloc-fns, etc.
 n1: 64 0x500: f (a.c:10)
  n0: 64 0x400: main (a.c:20)
snapshot=1 time=30 mem_heap_B=64 mem_heap_extra_B=0 mem_stacks_B=0 heap_tree=detailed
n1: 64 (heap allocation functions) malloc/new/new[], --alloc-fns, etc.
 n1: 64 0x500: f (a.c:10)
  n0: 64 0x400: main (a.c:20)
[0]
";

const WORKED_FILE: &str = "$ convert --from=massif t
0x400: main (a.c:20);0x500: f (a.c:10) 100
[0]
$ convert --from massif t --key=rb --snapshot 2
0x400: main (a.c:20);0x500: f (a.c:10) 100
[0]
$ convert --from=massif --snapshot=4 t
heapsuite: t: no tree
[1]
$ convert --from=massif --snapshot=5 t
heapsuite: t: no tree
[1]
> n0: 1 more
$ convert --from=massif --snapshot=5 t
heapsuite: t:47: bad snapshot
[1]
";

/// A detailed snapshot, two peaks, a tree whose children have more bytes than their line, labels that are shown, and bytes that sum to
/// more than 2^62.
const TREES: &str = "> n2: 9000 (heap allocation functions) malloc/new/new[], --alloc-fns, etc.
>  n0: 8960 0x4005BB: main (a.c:10)
>  n0: 40 in 3 places, all below massif's threshold (1.00%)
$ convert --from=massif t
0x4005BB: main (a.c:10) 8960
in 3 places, all below massif's threshold (1.00%) 40
[0]
> n2: 9000 (heap allocation functions) malloc/new/new[], --alloc-fns, etc.
>  n0: 8960 0x4005BB: main (a.c:10)
>  n0: 40 in 3 places, all below massif's threshold (1.00%)
$ convert --from=massif --snapshot=0 t
heapsuite: t: no tree
[1]
> n2: 9000 (heap allocation functions) malloc/new/new[], --alloc-fns, etc.
>  n0: 8960 0x4005BB: main (a.c:10)
$ convert --from=massif --snapshot=0 t
heapsuite: t:22: truncated
[1]
> n1: 9 root
>  n0: 5
> snapshot=2
> time=157300
> mem_heap_B=8
> mem_heap_extra_B=0
> mem_stacks_B=0
> heap_tree=peak
> n0: 8 root
> snapshot=3
> time=157300
> mem_heap_B=8
> mem_heap_extra_B=0
> mem_stacks_B=0
> heap_tree=peak
> n2: 8 root
>  n2: 5 a;b
>   n0: 4 c
>   n0: 2 c
>  n1: 1 a;b
>   n0: 1 c
> snapshot=4
> time=157300
> mem_heap_B=8
> mem_heap_extra_B=0
> mem_stacks_B=0
> heap_tree=detailed
> n0: 1 root
$ convert --from=massif t
(no stack) 2
c;a:b 7
[0]
> n1: 9 root
>  n0: 5
$ convert --from=massif t
(no stack) 4
? 5
[0]
> n2: 0 root
>  n0: 4611686018427387904 a
>  n0: 1 b
$ convert --from=massif t
heapsuite: t: figures too large
[6]
";

/// A file with a detailed snapshot before its peak and an earlier peak, in whose last tree children have more bytes than a line
/// has.
const PEAKS: &str = "desc: d\ncmd: c\ntime_unit: i
snapshot=0\ntime=0\nmem_heap_B=9\nmem_heap_extra_B=0\nmem_stacks_B=0\nheap_tree=peak
n1: 9 (root)
 n0: 9 first
snapshot=1\ntime=1\nmem_heap_B=9\nmem_heap_extra_B=0\nmem_stacks_B=0\nheap_tree=detailed
n0: 9 (root)
snapshot=2\ntime=2\nmem_heap_B=60\nmem_heap_extra_B=0\nmem_stacks_B=0\nheap_tree=peak
n3: 60 (root)
 n2: 30 a
  n0: 10 b;c
  n0: 5
 n1: 10 d
  n0: 20 e
 n0: 7 a
snapshot=3\ntime=3\nmem_heap_B=0\nmem_heap_extra_B=0\nmem_stacks_B=0\nheap_tree=empty
";

/// Of the last peak the root keeps 13, the two lines `a` 15 and 7, and `d` nothing.
const OF_PEAKS: &str = "$ convert --from=massif t
(no stack) 13
a 22
b:c;a 10
?;a 5
e;d 20
[0]
$ convert --from=massif --snapshot=0 t
first 9
[0]
$ convert --from=massif --snapshot=1 t
(no stack) 9
[0]
$ convert --from=massif --snapshot=3 t
heapsuite: t: no tree
[1]
$ convert --from=massif --snapshot=4 t
heapsuite: t: no tree
[1]
";

static RUNS: [Transcript; 8] = [
    ("convert a profile", DEMO, DHAT),
    ("convert lists", PROFILE_OF_LISTS, LISTS),
    ("convert documents", "", DOCUMENTS),
    ("convert places", PLACES, OF_PLACES),
    ("convert a lasting stack", LASTING, OF_LASTING),
    ("convert a worked Massif file", MASSIF, WORKED_FILE),
    ("convert trees", SECOND_FILE, TREES),
    ("convert peaks", PEAKS, OF_PEAKS),
];

#[test]
fn conversions(rt: HostRuntime) {
    play_all(&rt, rt.alloc(), &RUNS);
}
