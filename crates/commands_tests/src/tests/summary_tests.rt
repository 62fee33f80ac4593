//! `summary` over worked traces, its words, and every way in which reads are cut.

use crate::tests::transcript::{SOUND, Setting, TWO_SIZES, Transcript, comes_to, play_all};

const FIGURES: &str = "$ summary e
events: 3 calls: 2 temporary: 1 allocated: 200 peak: 100 at event 1 leaked: 100 in 1 blocks
[0]
> v 10500 2
$ summary t
events: 0 calls: 0 temporary: 0 allocated: 0 peak: 0 at event 0 leaked: 0 in 0 blocks
[0]
> v 10500 2
> a 64 0
> a 20 0
> + 0
> + 1
$ summary t
events: 2 calls: 2 temporary: 0 allocated: 132 peak: 132 at event 2 leaked: 132 in 2 blocks
[0]
> # a comment
> v 10500 3
> 
> z what
$ summary t
events: 0 calls: 0 temporary: 0 allocated: 0 peak: 0 at event 0 leaked: 0 in 0 blocks
[0]
> v 10500 2
> a 64 0
> a 32 0
> + 1
> + 1
> - 1
> c 5
> + 0
> - 0
> + 1
> + 1
$ summary t
events: 7 calls: 5 temporary: 2 allocated: 300 peak: 150 at event 4 leaked: 150 in 3 blocks
[0]
> v 10500 2
> a 2000000000000000 0
> a 0 0
> + 0
> + 0
> + 1
$ summary t
events: 3 calls: 3 temporary: 0 allocated: 4611686018427387904 peak: 4611686018427387904 at event 2 leaked: 4611686018427387904 in 3 blocks
[0]
";

const WORDS: &str = "$ --help
(usage)
[0]
$ summary -- t
events: 4 calls: 3 temporary: 0 allocated: 232 peak: 132 at event 2 leaked: 132 in 2 blocks
[0]
$ summary -- -x
heapsuite: -x: no such file
[3]
$ summary u
heapsuite: u: no such file
[3]
$ summary 
heapsuite: : no such file
[3]
$ summary -
heapsuite: -: no such file
[3]
";

static RUNS: [Transcript; 2] = [
    ("summary", "", FIGURES),
    ("summary by words", TWO_SIZES, WORDS),
];

#[test]
fn summaries(rt: HostRuntime) {
    play_all(&rt, rt.alloc(), &RUNS);
}

/// A trace, with its last line feed and without.
static CUT: [&str; 2] = [TWO_SIZES, "v 10500 2\na 64 0\na 20 0\n+ 0\n+ 1\n- 0\n+ 0"];

/// What a summary of the trace comes to.
static CUT_FIGURES: &str =
    "events: 4 calls: 3 temporary: 0 allocated: 232 peak: 132 at event 2 leaked: 132 in 2 blocks\n[0]\n";

#[test]
fn cut_reads(rt: HostRuntime) {
    for file in &CUT {
        for piece in 1..45 {
            let setting = Setting { piece, ..SOUND };
            comes_to(
                &rt,
                rt.alloc(),
                &setting,
                file.as_bytes(),
                "summary t",
                CUT_FIGURES,
            );
        }
    }
}
