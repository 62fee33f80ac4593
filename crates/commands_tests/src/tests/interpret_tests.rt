//! `interpret` over worked raw traces with their symbols, its refusals, and a read that fails.

use crate::tests::transcript::{SOUND, Setting, Transcript, play_settings};

const INTERPRETED: &str = "> v 10500 2
> x app
> m app 1000 0 1000
> t 1400 0
> t 1500 1
> + 40 2 9000
> + 40 2 9000
> - 9000
> - 9000
$ interpret --symbols=s t
v 10500 2
x app
s app
s main
s a.c
i 1400 1 2 3 14
t 1 0
s f
i 1500 1 4
t 2 1
a 40 2
+ 0
+ 0
- 0
[0]
> v 10500 2
> t 1400 0
> + 40 1 9000
> + 40 1 9010
> - 9000
> - 9000
> + 40 1 9000
> t 1400 1
> + 41 2 9000
> # many lines of this trace are taken at a time, so that this one is long
$ interpret t
v 10500 2
i 1400 0
t 1 0
a 40 1
+ 0
+ 0
- 0
+ 0
t 1 1
a 41 2
+ 1
# many lines of this trace are taken at a time, so that this one is long
[0]
> v 10500 2
> m app 1000 0 1000
> t 1400 0
> s f
> + 8 1 2
$ interpret t
v 10500 2
s app
i 1400 1
t 1 0
heapsuite: t:4: interpreted line
[1]
> v 10500 2
$ interpret --symbols=e t
heapsuite: e:1: bad symbol line
[1]
";

/// Each line alone says no symbol. Then lines meet a symbol before them.
const TABLES: &str = "> app\t400\t0\tmain
$ interpret --symbols=t e
heapsuite: t:1: bad symbol line
[1]
> app\t400\t100
$ interpret --symbols=t e
heapsuite: t:1: bad symbol line
[1]
> app\t400\t100\tmain\ta.c
$ interpret --symbols=t e
heapsuite: t:1: bad symbol line
[1]
> app\t400\t100\tmain\t\t20
$ interpret --symbols=t e
heapsuite: t:1: bad symbol line
[1]
> app\t400\t100\tmain\ta.c\tx
$ interpret --symbols=t e
heapsuite: t:1: bad symbol line
[1]
> app\tffffffffffffffff\t1\tmain
$ interpret --symbols=t e
heapsuite: t:1: bad symbol line
[1]
> 
> # app
> app\t400\t100\tmain
> app\t4ff\t1\tg
$ interpret --symbols=t e
heapsuite: t:4: symbols overlap
[1]
> app\t400\t100\tmain
> app\t3ff\t2\tg
$ interpret --symbols=t e
heapsuite: t:2: symbols overlap
[1]
";

/// Symbols of four modules: two that meet, and one that begins where another module's does and has two inner frames.
const SYMBOLS: &str =
    "app\t400\t100\tmain\nlib\t4ff\t1\tg\napp\t500\t1\tg\ta.c\t20\na\t0\t10\tf\tx.c\t10\tg\ty.c\t11\nb\t0\t10\th\n# app\n";

/// Each instruction is named by the symbol that holds its offset in its module, where there is one, and modules come and go.
const NAMED: &str = "> v 10500 2
> m app 1000 0 1000
> m none 2000 0 1000
> t 14ff 0
> t 1500 0
> t 13ff 0
> t 2400 0
$ interpret --symbols=s t
v 10500 2
s app
s main
i 14ff 1 2
t 1 0
s g
s a.c
i 1500 1 3 4 14
t 2 0
i 13ff 1
t 3 0
s none
i 2400 5
t 4 0
[0]
> v 10500
> m a 100 0 10
> m b 100 0 8
> t 0 0
> t 104 1
> t 108 1
> m -
> t 104 0
> t 102 0
> + 8 0 1
> + 9 0 2
> - 1
$ interpret --symbols=s t
v 10500 1
t 0 0
s b
s h
i 104 1 2
t 1 1
s a
s f
s x.c
s g
s y.c
i 108 3 4 5 a 6 7 b
t 2 1
t 1 0
i 102 0
t 3 0
a 8 0
+ 0
a 9 0
+ 1
- 0
[0]
";

const REFUSED: &str = "$ interpret t
heapsuite: t:1: no version line
[1]
> x app
$ interpret t
heapsuite: t:1: no version line
[1]
> v 10500 2
> + 0
$ interpret t
v 10500 2
heapsuite: t:2: interpreted line
[1]
> v 10500 2
> s main
$ interpret t
v 10500 2
heapsuite: t:2: interpreted line
[1]
> v 10500 2
> t 400 1
$ interpret t
v 10500 2
heapsuite: t:2: unknown parent
[1]
> v 10500 2
> + 8 5 1
$ interpret t
v 10500 2
heapsuite: t:2: unknown trace
[1]
> v 10500 2
> - 1
$ interpret t
v 10500 2
[0]
> v 10500 3
> + 0
$ interpret t
v 10500 3
heapsuite: t:2: interpreted line
[1]
> v 10500 3
> v 10500 2
$ interpret t
v 10500 3
heapsuite: t:2: second version line
[1]
> v 10500 3
> t 400 1
$ interpret t
v 10500 3
heapsuite: t:2: unknown parent
[1]
> v 10500 3
> + 8 5 1
$ interpret t
v 10500 3
heapsuite: t:2: unknown trace
[1]
> v 10500 3
> - 1
$ interpret t
v 10500 3
[0]
";

/// The third call on the store reads the trace from byte 16 on: the lines before are written.
const FAILED_READ: &str = "> v 10500 2
> x app
> x more
$ interpret t
v 10500 2
x app
heapsuite: t: cannot read
[3]
";

static RUNS: [(Setting, Transcript); 5] = [
    (SOUND, ("interpret", "", INTERPRETED)),
    (SOUND, ("interpret by tables", "", TABLES)),
    (SOUND, ("interpret refuses", "", REFUSED)),
    (
        Setting {
            symbols: SYMBOLS,
            ..SOUND
        },
        ("interpret by names", "", NAMED),
    ),
    (
        Setting {
            failing_store_call: 3,
            ..SOUND
        },
        ("interpret up to a failed read", "", FAILED_READ),
    ),
];

#[test]
fn interpretations(rt: HostRuntime) {
    play_settings(&rt, rt.alloc(), &RUNS);
}
