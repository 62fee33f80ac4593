//! Runs whose text is the same whatever the threads do: those of one script, and those that record nothing.

use crate::tests::gates::{NOBODY, Watch};
use crate::tests::runs::{Run, append_run, sound};
use crate::tests::transcripts::{Transcript, expect_all};
use hp_num::{NoMemory, put_bytes};
use std::alloc::Global;
use std::process::Abort;
use std::sync::Wait;
use std::thread::Threads;

static TRANSCRIPTS: [Transcript; 5] = [
    Transcript {
        most_events: 100,
        text: "> a 1 40 500 400
> f 1
> a 2 8 400
$ s
v 10500 2\nX heaprec\n# thread 0\nt 400 0\nt 500 1\n+ 40 2 10000\n- 10000\n+ 8 1 10040
[0]
> a 1 40 500 400
> f 1
> a 2 8 400
> f 3
$ s
heaprec: s:4: block not live
[1]
> r 5 8 1
$ s
heaprec: s:1: block not live
[1]
> a 1 40 500 400
> r 1 8 400
$ --modules=m --summary s
v 10500 2\nX heaprec\nm app 1000 0 1f00\nm -\n# thread 0\nt 400 0\nt 500 1\n+ 40 2 10000\n- 10000\n+ 8 1 10040
# threads: 1\n# events: 3\n# calls: 2\n# allocated: 72\n# leaked: 8 in 1 blocks\n# peak: 64 from 64 to 64
[0]
$ s
v 10500 2\nX heaprec
[0]
$ 
(usage)
[2]
$ --help
(usage)
[2]
$ - -
(usage)
[2]
$ s0 none s1
heaprec: none: no such file
[3]
> # none
> a 1 8 400
> f 3
$ s0 s
heaprec: s:3: block not live
[1]
$ --modules=s0 s1
heaprec: s0:1: bad script line
[1]
$ --modules=m - s0
heaprec: -: no such file
[3]
$ --modules - - s0
(usage)
[2]
$ --summary
(usage)
[2]
$ --modules=-
(usage)
[2]
$ --modules=m --modules=m s0
(usage)
[2]
$ -- --summary
heaprec: --summary: no such file
[3]
",
    },
    // Which words are taken, and what they give.
    Transcript {
        most_events: 100,
        text: "$ s0 -- -x --summary
heaprec: -x: no such file
[3]
$ help -
heaprec: help: no such file
[3]
$ --modules - s0
heaprec: -: no such file
[3]
$ --modules= s0
heaprec: : no such file
[3]
> a 1 8 400
$ s --modules m --summary
v 10500 2\nX heaprec\nm app 1000 0 1f00\nm -\n# thread 0\nt 400 0\n+ 8 1 10000
# threads: 1\n# events: 1\n# calls: 1\n# allocated: 8\n# leaked: 8 in 1 blocks\n# peak: 8 from 8 to 8
[0]
$ --other=1 s0
(usage)
[2]
$ --other s0
(usage)
[2]
$ -x s0
(usage)
[2]
$ -h s0
(usage)
[2]
$ --help s0
(usage)
[2]
$ --mod=m s0
(usage)
[2]
$ s0 --modules
(usage)
[2]
$ --modules -5 s0
(usage)
[2]
$ --modules=m --modules=none s0
(usage)
[2]
$ --summary=1 s0
(usage)
[2]
$ --summary --summary s0
(usage)
[2]
$ s0 --modules --summary
(usage)
[2]
",
    },
    // More lines of scripts and of modules files that are refused, and the greatest ID and size.
    Transcript {
        most_events: 100,
        text: "> a  1 8
> a 1 8
$ s
heaprec: s:2: block live
[1]
> 
> # a 1
> r 1 8
$ s
heaprec: s:3: block not live
[1]
> x app
$ --modules=s s0
heaprec: s:1: bad script line
[1]
> m app
$ --modules=s s0
heaprec: s:1: bad script line
[1]
> a fedcba9876543210 100000000 500 400
> r fedcba9876543210 20 400
> f fedcba9876543210
$ s
v 10500 2\nX heaprec\n# thread 0\nt 400 0\nt 500 1\n+ 100000000 2 10000\n- 10000\n+ 20 1 100010000\n- 100010000
[0]
",
    },
    // 64 scripts, and one more.
    Transcript {
        most_events: 100,
        text: "$ s s s s s s s s s s s s s s s s s s s s s s s s s s s s s s s s \
s s s s s s s s s s s s s s s s s s s s s s s s s s s s s s s s
v 10500 2\nX heaprec
[0]
$ s s s s s s s s s s s s s s s s s s s s s s s s s s s s s s s s \
s s s s s s s s s s s s s s s s s s s s s s s s s s s s s s s s \
s
(usage)
[2]
",
    },
    // A reallocation is two events.
    Transcript {
        most_events: 2,
        text: "$ s0 s1
heaprec: s1:1: too many events
[6]
> a 1 8
> r 1 20
$ s
heaprec: s:2: too many events
[6]
$ r
heaprec: r:2: too many events
[6]
",
    },
];

#[test]
fn runs(rt: HostRuntime) {
    expect_all(&rt, rt.alloc(), &TRANSCRIPTS, &Watch::of(NOBODY));
}

/// Lines of scripts that are refused alone.
static BAD_LINES: [&str; 9] = [
    "a 1\n",
    "ax 1 8\n",
    "f 1 2\n",
    "f\n",
    "b 1\n",
    "a 1 100000001\n",
    "a 10000000000000000 8\n",
    "a 1 8 1 0\n",
    "a 1 8 x\n",
];

/// A run of the script alone comes to what is wanted.
fn comes_to<R: Threads + Wait + Sync + Abort>(rt: &R, alloc: Global, script: &[u8], want: &str) {
    let mut got = Vec::new(alloc);
    let run = Run {
        setting: sound(100),
        script,
        words: "s",
    };
    append_run(rt, alloc, &run, &Watch::of(NOBODY), &mut got);
    assert_eq!(rt; got.as_slice(), want.as_bytes());
}

#[test]
fn bad_lines(rt: HostRuntime) {
    for line in &BAD_LINES {
        comes_to(
            &rt,
            rt.alloc(),
            line.as_bytes(),
            "heaprec: s:1: bad script line\n[1]\n",
        );
    }
}

/// Appends the reallocation of a block that isn't live, at so many pointers.
fn put_pointers(count: u32, script: &mut Vec<u8>) -> Result<(), NoMemory> {
    put_bytes(script, b"r 1 8")?;
    for _ in 0..count {
        put_bytes(script, b" 1")?;
    }
    put_bytes(script, b"\n")
}

/// Numbers of pointers, and what a script comes to that has so many in a line. A line has 256 at most.
static POINTERS: [(u32, &str); 2] = [
    (256, "heaprec: s:1: block not live\n[1]\n"),
    (257, "heaprec: s:1: bad script line\n[1]\n"),
];

#[test]
fn most_pointers(rt: HostRuntime) {
    for (count, want) in &POINTERS {
        let mut script = Vec::new(rt.alloc());
        put_pointers(*count, &mut script).expect(&rt, "memory");
        comes_to(&rt, rt.alloc(), &script, want);
    }
}
