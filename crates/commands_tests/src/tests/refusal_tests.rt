//! Refusals: of words, of a line of a trace or behind one, of lengths, and of a stack too deep.

use crate::tests::transcript::{
    SOUND, Setting, TWO_SIZES, Transcript, WORKED, comes_to, play_settings,
};
use hp_num::{NoMemory, put_bytes, put_hex};

/// Words that aren't taken, the first time none.
static WORDS: &str = "
summary
summary t t
summary -t
summary -h
summary --help
summary --level=5 t
--help t
Summary t
 t
flame
flame t u
flame --flamegraph-cost-type=bytes t
flame --flamegraph-cost-type=Peak t
flame --flamegraph-cost-type t
flame --flamegraph-cost-type=peak --flamegraph-cost-type=peak t
interpret
interpret --symbols=- -
gen t
gen --seed=2147483648
gen --seed=-1
gen --events=10000001
gen --stacks=0
gen --stacks=4001
gen --run=1
gen --run --run
dhat
dhat t e
dhat_view
dhat_view d e
dhat_view --sort=mb d
dhat_view --sort=acc d
dhat_view --sort=Tb d
dhat_view --sort= d
dhat_view --sort=tb --sort=tb d
dhat_view --threshold=1.000 d
dhat_view --threshold=100.01 d
dhat_view --depth=0 d
dhat_view --depth=201 d
dhat_view --depth d
dhat_view --key=tb d
dhat_view --help
massif
massif t e
massif --threshold=1.000 t
massif --threshold=100.01 t
massif --peak-inaccuracy=101 t
massif --detailed-freq=0 t
massif --detailed-freq=1000001 t
massif --max-snapshots=9 t
massif --max-snapshots=1001 t
massif --depth=0 t
massif --depth=201 t
massif --heap-admin=1025 t
massif --alignment=0 t
massif --alignment=24 t
massif --alignment=8192 t
massif --time-unit=i t
massif --time-unit= t
massif --alloc-fns t
ms_print
ms_print t e
ms_print --x=3 t
ms_print --y=1001 t
ms_print --threshold=1.000 t
ms_print --threshold=101 t
print
print t e
print --peak-limit=1 --peak-limit=2 t
print --peak-limit=1000001 t
print --sub-peak-limit=-1 t
print --sub-peak-limit= t
print --print-leaks=2 t
print --histogram t
print --merge-backtraces=true t
print --suppressions=- -
convert
convert d e
convert --from=massif --to=massif t
convert --from=trace d
convert --from= d
convert --to=dhat d
convert --to=Massif d
convert --key=mb d
convert --key= d
convert --from=massif --key=mb t
convert --snapshot=1000001 d
convert --snapshot=-1 d
convert --snapshot=1 --snapshot=1 d
convert --snapshot d
convert --folded d";

#[test]
fn words_that_are_not_taken(rt: HostRuntime) {
    for words in WORDS.split('\n') {
        comes_to(
            &rt,
            rt.alloc(),
            &SOUND,
            b"v 10500 2\n",
            words,
            "(usage)\n[2]\n",
        );
    }
}

const TRACES: &str = "$ summary t
heapsuite: t:1: no version line
[1]
> # a comment
$ summary t
heapsuite: t:2: no version line
[1]
> 
$ summary t
heapsuite: t:1: no version line
[1]
> s main
$ summary t
heapsuite: t:1: no version line
[1]
> v 10500 2
> a 64 0
> - 0
$ summary t
heapsuite: t:3: free of nothing
[1]
> v 10500 2
> a 64 0
> - 0
$ print t
heapsuite: t:3: free of nothing
[1]
> v 10500 2
> a 64 0
> + 0
> - 0
> - 0
> +
$ summary t
heapsuite: t:5: free of nothing
[1]
> v 10500 2
> a 2000000000000000 0
> a 1 0
> + 0
> + 0
> + 1
$ summary t
heapsuite: t:6: too many bytes allocated
[6]
";

/// Lines that stand by themselves behind the 18 lines of the worked trace, and what a summary of it then comes to.
static LINES: [(&str, &str); 15] = [
    (
        "z what\n",
        "events: 3 calls: 2 temporary: 1 allocated: 200 peak: 100 at event 1 leaked: 100 in 1 blocks\n[0]\n",
    ),
    ("v 10500 2\n", "heapsuite: t:19: second version line\n[1]\n"),
    (
        "v 10500 4\n",
        "heapsuite: t:19: file version not 1 to 3\n[1]\n",
    ),
    ("i 1 4 4 5 1\n", "heapsuite: t:19: unknown string\n[1]\n"),
    ("i 1 1 2 3\n", "heapsuite: t:19: missing field\n[1]\n"),
    ("t 99 99\n", "heapsuite: t:19: unknown instruction\n[1]\n"),
    ("t 9 0\n", "heapsuite: t:19: unknown instruction\n[1]\n"),
    ("t 1 3\n", "heapsuite: t:19: unknown parent\n[1]\n"),
    ("t 1 5\n", "heapsuite: t:19: unknown parent\n[1]\n"),
    ("a 1 3\n", "heapsuite: t:19: unknown trace\n[1]\n"),
    ("+ 2\n", "heapsuite: t:19: unknown allocation\n[1]\n"),
    ("- 0\n", "heapsuite: t:19: free of nothing\n[1]\n"),
    ("+ 40 1 1000\n", "heapsuite: t:19: raw line\n[1]\n"),
    ("+0\n", "heapsuite: t:19: bad field\n[1]\n"),
    ("R 1 2\n", "heapsuite: t:19: extra field\n[1]\n"),
];

#[test]
fn lines_behind_a_trace(rt: HostRuntime) {
    for (line, want) in &LINES {
        let mut trace = Vec::new(rt.alloc());
        put_bytes(&mut trace, WORKED.as_bytes()).expect(&rt, "memory");
        put_bytes(&mut trace, line.as_bytes()).expect(&rt, "memory");
        comes_to(&rt, rt.alloc(), &SOUND, &trace, "summary t", want);
    }
}

/// A trace with a chain of 4,097 nodes of one frame each, from line 3 on.
fn put_chain(trace: &mut Vec<u8>) -> Result<(), NoMemory> {
    put_bytes(trace, b"v 10500 2\ni 10 0\n")?;
    for parent in 0..4097u64 {
        put_bytes(trace, b"t 1 ")?;
        put_hex(trace, parent)?;
        put_bytes(trace, b"\n")?;
    }
    Ok(())
}

#[test]
fn stack_too_deep(rt: HostRuntime) {
    let setting = Setting {
        piece: 4096,
        ..SOUND
    };
    let want = "heapsuite: t:4099: stack too deep\n[6]\n";
    let mut trace = Vec::new(rt.alloc());
    put_chain(&mut trace).expect(&rt, "a trace");
    comes_to(&rt, rt.alloc(), &setting, &trace, "summary t", want);
}

/// A line may have 9 bytes, and a file 20.
const LIMITED: &str = "> v 10500 2
> # 2345678
$ summary t
events: 0 calls: 0 temporary: 0 allocated: 0 peak: 0 at event 0 leaked: 0 in 0 blocks
[0]
> v 10500 2
> # 234
> # 23
$ summary t
heapsuite: t:3: input too long
[6]
";

/// A line may have 9 bytes, and a file 20 or 1,000.
const SHORT_LINES: &str = "> v 10500 2
$ summary t
events: 0 calls: 0 temporary: 0 allocated: 0 peak: 0 at event 0 leaked: 0 in 0 blocks
[0]
> v 10500 2
> # 23456789
$ summary t
heapsuite: t:2: line too long
[6]
";

/// A file may have 10 bytes, of which the first line and its line feed have all.
const SHORT_FILE: &str = "$ summary t
heapsuite: t:2: input too long
[6]
";

static RUNS: [(Setting, Transcript); 5] = [
    (SOUND, ("refused traces", "", TRACES)),
    (
        Setting {
            input: 20,
            line: 9,
            ..SOUND
        },
        ("lengths", "", LIMITED),
    ),
    (
        Setting {
            input: 20,
            line: 9,
            ..SOUND
        },
        ("short lines of a short file", "", SHORT_LINES),
    ),
    (
        Setting {
            input: 1000,
            line: 9,
            ..SOUND
        },
        ("short lines", "", SHORT_LINES),
    ),
    (
        Setting {
            input: 10,
            line: 1000,
            ..SOUND
        },
        ("a short file", TWO_SIZES, SHORT_FILE),
    ),
];

#[test]
fn refusals(rt: HostRuntime) {
    play_settings(&rt, rt.alloc(), &RUNS);
}
