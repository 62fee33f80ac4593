//! `ms_print` over the worked Massif file, and the faults of files.

use crate::tests::transcript::{
    MASSIF, Outcome, SECOND_FILE, SOUND, Transcript, play_all, put_outcome, run_words,
};
use hp_num::{NoMemory, put_bytes};
use std::alloc::Global;
use std::process::Abort;

const PAGE: &str = "$ ms_print --x=8 --y=4 t
--------------------------------------------------------------------------------
Command:            demo
Massif arguments:   heapsuite massif
ms_print arguments: --x=8 --y=4 t
--------------------------------------------------------------------------------


    B
  120^  ##   :
     |  #    :
     |  #    :
     |  #    :
   0 +------->B
     0    360

Number of snapshots: 5
 Detailed snapshots: [2 (peak)]

--------------------------------------------------------------------------------
  n        time(B)         total(B)   useful-heap(B) extra-heap(B)    stacks(B)
--------------------------------------------------------------------------------
  0              0                0                0             0            0
  1            120              120              100            20            0
  2            120              120              100            20            0
83.33% (100B) (heap allocation functions) malloc/new/new[], --alloc-fns, etc.
->83.33% (100B) 0x500: f (a.c:10)
  ->83.33% (100B) 0x400: main (a.c:20)
    

--------------------------------------------------------------------------------
  n        time(B)         total(B)   useful-heap(B) extra-heap(B)    stacks(B)
--------------------------------------------------------------------------------
  3            240                0                0             0            0
  4            360              120              100            20            0
[0]
";

/// Of thousands of bytes and instructions, with a place below the threshold.
const SECOND_PAGE: &str =
    "> n2: 9000 (heap allocation functions) malloc/new/new[], --alloc-fns, etc.
>  n0: 8960 0x4005BB: main (a.c:10)
>  n0: 40 in 3 places, all below massif's threshold (1.00%)
$ ms_print --x=8 --y=4 t
--------------------------------------------------------------------------------
Command:            ./a.out
Massif arguments:   (none)
ms_print arguments: --x=8 --y=4 t
--------------------------------------------------------------------------------


    KB
8.859^       @
     |       @
     |       @
     |       @
   0 +------->ki
     0  157.3

Number of snapshots: 2
 Detailed snapshots: [1]

--------------------------------------------------------------------------------
  n        time(i)         total(B)   useful-heap(B) extra-heap(B)    stacks(B)
--------------------------------------------------------------------------------
  0              0                0                0             0            0
  1        157,300            9,072            9,000            72            0
99.21% (9,000B) (heap allocation functions) malloc/new/new[], --alloc-fns, etc.
->98.77% (8,960B) 0x4005BB: main (a.c:10)
|\x20
->00.44% (40B) in 1 place, below ms_print's threshold (01.00%)
\x20\x20

[0]
";

const FRONTS: &str = "$ ms_print t
heapsuite: t:1: truncated
[1]
> cmd: a
> time_unit: q
$ ms_print t
heapsuite: t:2: bad header
[1]
";

static RUNS: [Transcript; 3] = [
    ("ms_print", MASSIF, PAGE),
    ("ms_print of a second file", SECOND_FILE, SECOND_PAGE),
    ("ms_print of fronts", "", FRONTS),
];

#[test]
fn pages(rt: HostRuntime) {
    play_all(&rt, rt.alloc(), &RUNS);
}

/// The tree of the second Massif file.
const TREE: &str = "n2: 9000 (heap allocation functions) malloc/new/new[], --alloc-fns, etc.
 n0: 8960 0x4005BB: main (a.c:10)
 n0: 40 in 3 places, all below massif's threshold (1.00%)
";

/// Appends lines with another one in the place of each that is one line, or without it where the other is empty.
fn put_exchanged(lines: &str, line: &str, other: &str, file: &mut Vec<u8>) -> Result<(), NoMemory> {
    for text in lines.split('\n') {
        let text = if text == line { other } else { text };
        if !text.is_empty() {
            put_bytes(file, text.as_bytes())?;
            put_bytes(file, b"\n")?;
        }
    }
    Ok(())
}

/// Plays a row of a table: behind a line of the second file and `=>` stands what takes its place, and below it what the words then
/// write. `file` and `outcome` are lent.
fn play_row(
    rt: &impl Abort,
    alloc: Global,
    words: &str,
    row: &str,
    file: &mut Vec<u8>,
    outcome: &mut Outcome,
    all: &mut Vec<u8>,
) -> Result<(), NoMemory> {
    let Some((line, other)) = row.split_once("=>") else {
        return Ok(());
    };
    put_bytes(all, row.as_bytes())?;
    put_bytes(all, b"\n")?;
    file.clear();
    put_exchanged(SECOND_FILE, line, other, file)?;
    put_exchanged(TREE, line, other, file)?;
    run_words(rt, alloc, &SOUND, file, words, outcome);
    put_outcome(outcome, all)
}

/// Plays the rows of a table, and asserts that what stands there then is the table.
fn play_rows(rt: &impl Abort, alloc: Global, words: &str, table: &str) {
    let mut file = Vec::new(alloc);
    let mut outcome = Outcome::new(alloc);
    let mut all = Vec::new(alloc);
    for row in table.split('\n') {
        play_row(rt, alloc, words, row, &mut file, &mut outcome, &mut all).expect(rt, "memory");
    }
    assert_eq!(rt; all.as_slice(), table.as_bytes());
}

// Lines of the header, of snapshots and of trees. Of the last four, three leave a tree with fewer lines than its root counts, of which one
// is a skipped line, and one leaves it with one more.
static REFUSED: &str = "desc: (none)=>time_unit: i
heapsuite: t:1: bad header
[1]
desc: (none)=> desc: (none)
heapsuite: t:1: bad header
[1]
cmd: ./a.out=>snapshot=0
heapsuite: t:2: bad header
[1]
cmd: ./a.out=>desc: second
heapsuite: t:3: bad header
[1]
time_unit: i=>desc: late
heapsuite: t:3: bad header
[1]
time_unit: i=>time_unit: q
heapsuite: t:3: bad header
[1]
time_unit: i=>time_unit: i\x20
heapsuite: t:3: bad header
[1]
snapshot=0=>time=0
heapsuite: t:5: bad snapshot
[1]
time=0=> time=0
heapsuite: t:7: bad snapshot
[1]
mem_heap_B=0=>mem_heap_extra_B=0
heapsuite: t:8: bad snapshot
[1]
mem_stacks_B=0=>heap_tree=empty
heapsuite: t:10: bad snapshot
[1]
heap_tree=empty=>heap_tree=empty\x20
heapsuite: t:11: bad snapshot
[1]
snapshot=0=>snapshot=
heapsuite: t:5: bad number
[1]
mem_heap_B=0=>mem_heap_B= 0
heapsuite: t:8: bad number
[1]
mem_heap_extra_B=0=>mem_heap_extra_B=4611686018427387905
heapsuite: t:9: bad number
[1]
time=157300=>time=-1
heapsuite: t:15: bad number
[1]
snapshot=0=>snapshot=1
heapsuite: t:5: wrong order
[1]
snapshot=1=>snapshot=2
heapsuite: t:13: wrong order
[1]
time=0=>time=157301
heapsuite: t:15: wrong order
[1]
n2: 9000 (heap allocation functions) malloc/new/new[], --alloc-fns, etc.=>2: 9000 x
heapsuite: t:20: bad tree
[1]
n2: 9000 (heap allocation functions) malloc/new/new[], --alloc-fns, etc.=>n2:9000 x
heapsuite: t:20: bad tree
[1]
n2: 9000 (heap allocation functions) malloc/new/new[], --alloc-fns, etc.=>n2:  9000 x
heapsuite: t:20: bad tree
[1]
n2: 9000 (heap allocation functions) malloc/new/new[], --alloc-fns, etc.=>n4294967296: 9000 x
heapsuite: t:20: bad tree
[1]
 n0: 8960 0x4005BB: main (a.c:10)=> n0: 4611686018427387905 x
heapsuite: t:21: bad tree
[1]
 n0: 8960 0x4005BB: main (a.c:10)=> n0: 8960x main
heapsuite: t:21: bad tree
[1]
n2: 9000 (heap allocation functions) malloc/new/new[], --alloc-fns, etc.=>n3: 9000 a
heapsuite: t:23: truncated
[1]
 n0: 8960 0x4005BB: main (a.c:10)=>#n0: 8960 main
heapsuite: t:23: truncated
[1]
 n0: 40 in 3 places, all below massif's threshold (1.00%)=>
heapsuite: t:22: truncated
[1]
n2: 9000 (heap allocation functions) malloc/new/new[], --alloc-fns, etc.=>n1: 9000 x
heapsuite: t:22: bad snapshot
[1]
";

#[test]
fn refused_lines(rt: HostRuntime) {
    play_rows(&rt, rt.alloc(), "ms_print t", REFUSED);
}

// Unusual lines.
static TAKEN: &str = "desc: (none)=>desc:
0x4005BB: main (a.c:10) 8960
in 3 places, all below massif's threshold (1.00%) 40
[0]
desc: (none)=>
0x4005BB: main (a.c:10) 8960
in 3 places, all below massif's threshold (1.00%) 40
[0]
cmd: ./a.out=>cmd:
0x4005BB: main (a.c:10) 8960
in 3 places, all below massif's threshold (1.00%) 40
[0]
time_unit: i=>time_unit:   ms
0x4005BB: main (a.c:10) 8960
in 3 places, all below massif's threshold (1.00%) 40
[0]
#-----------=>\x20\x20\x20
0x4005BB: main (a.c:10) 8960
in 3 places, all below massif's threshold (1.00%) 40
[0]
snapshot=1=>snapshot=00001
0x4005BB: main (a.c:10) 8960
in 3 places, all below massif's threshold (1.00%) 40
[0]
time=157300=>time=4611686018427387904
0x4005BB: main (a.c:10) 8960
in 3 places, all below massif's threshold (1.00%) 40
[0]
n2: 9000 (heap allocation functions) malloc/new/new[], --alloc-fns, etc.=>   n2: 9000
0x4005BB: main (a.c:10) 8960
in 3 places, all below massif's threshold (1.00%) 40
[0]
 n0: 40 in 3 places, all below massif's threshold (1.00%)=>n000: 0040\x20
0x4005BB: main (a.c:10) 8960
? 40
[0]
";

#[test]
fn taken_lines(rt: HostRuntime) {
    play_rows(&rt, rt.alloc(), "convert --from=massif t", TAKEN);
}
