//! Massif files.

/// A profile in instructions with a detailed tree, of 22 lines.
pub const DETAILED: &[u8] = b"desc: (none)
cmd: ./a.out
time_unit: i
#-----------
snapshot=0
#-----------
time=0
mem_heap_B=0
mem_heap_extra_B=0
mem_stacks_B=0
heap_tree=empty
#-----------
snapshot=1
#-----------
time=157300
mem_heap_B=9000
mem_heap_extra_B=72
mem_stacks_B=0
heap_tree=detailed
n2: 9000 (heap allocation functions) malloc/new/new[], --alloc-fns, etc.
 n0: 8960 0x4005BB: main (a.c:10)
 n0: 40 in 3 places, all below massif's threshold (1.00%)
";

/// What Valgrind's Massif wrote of a small program, in instructions. The program stands among the repository's examples, with
/// this file and one in bytes.
pub const BLOCKS: &[u8] = b"desc: --time-unit=i --detailed-freq=3 --massif-out-file=blocks.i.out
cmd: ./blocks
time_unit: i
#-----------
snapshot=0
#-----------
time=0
mem_heap_B=0
mem_heap_extra_B=0
mem_stacks_B=0
heap_tree=empty
#-----------
snapshot=1
#-----------
time=134647
mem_heap_B=100
mem_heap_extra_B=20
mem_stacks_B=0
heap_tree=empty
#-----------
snapshot=2
#-----------
time=134688
mem_heap_B=50100
mem_heap_extra_B=28
mem_stacks_B=0
heap_tree=detailed
n2: 50100 (heap allocation functions) malloc/new/new[], --alloc-fns, etc.
 n1: 50000 0x109166: large (blocks.c:9)
  n0: 50000 0x10917E: main (blocks.c:14)
 n0: 100 in 1 place, below massif's threshold (1.00%)
#-----------
snapshot=3
#-----------
time=135378
mem_heap_B=50100
mem_heap_extra_B=28
mem_stacks_B=0
heap_tree=peak
n2: 50100 (heap allocation functions) malloc/new/new[], --alloc-fns, etc.
 n1: 50000 0x109166: large (blocks.c:9)
  n0: 50000 0x10917E: main (blocks.c:14)
 n0: 100 in 1 place, below massif's threshold (1.00%)
#-----------
snapshot=4
#-----------
time=135378
mem_heap_B=50000
mem_heap_extra_B=8
mem_stacks_B=0
heap_tree=empty
#-----------
snapshot=5
#-----------
time=135410
mem_heap_B=50100
mem_heap_extra_B=28
mem_stacks_B=0
heap_tree=empty
#-----------
snapshot=6
#-----------
time=135448
mem_heap_B=100
mem_heap_extra_B=20
mem_stacks_B=0
heap_tree=detailed
n2: 100 (heap allocation functions) malloc/new/new[], --alloc-fns, etc.
 n2: 100 0x109156: small (blocks.c:5)
  n0: 100 0x109193: main (blocks.c:16)
  n0: 0 in 1 place, below massif's threshold (1.00%)
 n0: 0 in 1 place, below massif's threshold (1.00%)
";

/// A front in milliseconds with a snapshot whose figures all differ, up to its tree.
pub static FRONT: &[u8] =
    b"desc: d\ncmd: c\ntime_unit: ms\n#-----------\nsnapshot=0\n#-----------\ntime=1\nmem_heap_B=2\nmem_heap_extra_B=3\nmem_stacks_B=4\nheap_tree=peak\n";

/// A file with two descriptions that say something, blanks, a comment and an empty line.
pub const LOOSE: &[u8] =
    b"desc:   -a  \ndesc: \n# a comment\ndesc: -b\n\ncmd:    ./a  b\ntime_unit: e\nsnapshot=0\ntime=7\nmem_heap_B=0\nmem_heap_extra_B=0\nmem_stacks_B=3\nheap_tree=empty\n";

/// The same as it is written.
pub const LOOSE_WRITTEN: &[u8] =
    b"desc: -a   -b\ncmd: ./a  b\ntime_unit: e\n#-----------\nsnapshot=0\n#-----------\ntime=7\nmem_heap_B=0\nmem_heap_extra_B=0\nmem_stacks_B=3\nheap_tree=empty\n";

/// How the first lines of the worked file end, from none of them to all but the last one.
pub static FIRST_LINES: &str = "truncated in line 1
truncated in line 2
truncated in line 3
truncated in line 4
truncated in line 5
truncated in line 6
truncated in line 7
truncated in line 8
truncated in line 9
truncated in line 10
truncated in line 11
1 snapshots
1 snapshots
truncated in line 14
truncated in line 15
truncated in line 16
truncated in line 17
truncated in line 18
truncated in line 19
truncated in line 20
truncated in line 21
truncated in line 22
";
