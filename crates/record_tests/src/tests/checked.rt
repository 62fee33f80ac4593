//! Traces that are checked, and what is said of each.

use order_check::Verdict;

/// A trace, and what is said of it.
pub type Checked = (&'static str, Verdict);

/// Traces that are checked against the scripts `s0` and `s1`.
pub static OF_TWO: [Checked; 20] = [
    (
        "v 10500 2\nX heaprec\n# thread 0\nt 400 0\nt 500 1\n+ 40 2 10000\n# thread 1\n+ 8 1 10040\n# thread 0\n- 10000\n",
        Verdict::Yes { events: 3 },
    ),
    (
        "v 10500 2\nX heaprec\n# thread 0\nt 400 0\nt 500 1\n+ 40 2 10000\n# thread 1\n+ 8 1 10040\n# thread 0\n",
        Verdict::No { line: 10 },
    ),
    (
        "v 10500 2\nX heaprec\n# thread 0\nt 400 0\nt 500 1\n+ 40 2 10000\n# thread 1\n+ 8 1 10040\n# thread 0\n- 10000",
        Verdict::No { line: 11 },
    ),
    (
        "v 10500 2\nX heaprec\n# thread 0\nt 400 0\nt 500 1\n+ 40 2 10000\n- 10000\n# thread 1\n+ 8 1 10040\n# thread 0\n- 10000\n",
        Verdict::No { line: 10 },
    ),
    (
        "v 10500 2\nX heaprec\n# thread 0\nt 400 0\nt 500 1\n+ 40 2 10000\n# thread 1\n+ 8 1 10050\n# thread 0\n- 10000\n",
        Verdict::No { line: 8 },
    ),
    (
        "v 10500 2\nX heaprec\n# thread 0\nt 400 0\nt 500 1\n+ 40 2 10000\n# thread 2\n+ 8 1 10040\n# thread 0\n- 10000\n",
        Verdict::No { line: 7 },
    ),
    (
        "v 10500 2\nX heaprec\n# thread 0\nt 400 0\nt 500 1\n+ 40 2 10000\n# thread 1\n+ 8 1 10040\n# thread 0\n- 10000\n# threads: 2\n# events: 3\n# calls: 2\n# allocated: 72\n# leaked: 8 in 1 blocks\n# peak: 72 from 64 to 72\n",
        Verdict::No { line: 11 },
    ),
    (
        "v 10500 2\nX heaprec\n# thread 0\nt 400 0\nt 500 1\n+ 40 2 10000\n# thread 1\n+ 8 1 10040\n# thread 0\n- 10000\n\n",
        Verdict::No { line: 11 },
    ),
    ("", Verdict::No { line: 1 }),
    (
        "v 10500 2\nX heaprec\n# thread 0\nt 400 0\n+ 40 2 10000\n# thread 1\n+ 8 1 10040\n# thread 0\n- 10000\n",
        Verdict::No { line: 5 },
    ),
    (
        "v 10500 2\nX heaprec\n# thread 0\nt 400 0\nt 500 1\n+ 40 2 10000\n# thread 1\n# thread 1\n+ 8 1 10040\n# thread 0\n- 10000\n",
        Verdict::No { line: 8 },
    ),
    (
        "v 10500 2\nX heaprec\n# thread 0\nt 400 0\nt 500 1\n+ 040 2 10000\n# thread 1\n+ 8 1 10040\n# thread 0\n- 10000\n",
        Verdict::No { line: 6 },
    ),
    (
        "v 10500 2\nX heaprec\n# thread 0\nt 400 0\n",
        Verdict::No { line: 5 },
    ),
    (
        "v 10500 2\nX heaprec\n# thread 0\nt 400 0\nt 500 1\n+ 40 2 10000\n# thread 1\n+ 8 1 10040\n# thread 0\n- 10000\n# threads: 2\n",
        Verdict::No { line: 11 },
    ),
    ("v 10500 2\n", Verdict::No { line: 2 }),
    ("v 10500 2\nX heaprec\n", Verdict::No { line: 3 }),
    (
        "v 10500 2\nX heaprec\n+ 8 1 10000\n",
        Verdict::No { line: 3 },
    ),
    (
        "v 10500 2\nX heaprec\n# thread 00\n",
        Verdict::No { line: 3 },
    ),
    (
        "v 10500 2\nX heaprec\n# thread 0\n# thread 0\n",
        Verdict::No { line: 4 },
    ),
    (
        "v 10500 2\nX heaprec\n# thread 1\nt 400 0\n+ 8 1 10000\n# thread 0\nt 500 1\n",
        Verdict::No { line: 8 },
    ),
];

/// Traces that are checked against the script `r`, which moves its block.
pub static OF_ONE: [Checked; 5] = [
    (
        "v 10500 2\nX heaprec\n# thread 0\nt 1 0\n+ 10 1 10000\n- 10000\n+ 20 1 10010\n- 10010\nt 2 0\n+ 20 2 10010\n",
        Verdict::Yes { events: 5 },
    ),
    (
        "v 10500 2\nX heaprec\n# thread 0\nt 1 0\n+ 10 1 10000\n- 10000\n",
        Verdict::No { line: 7 },
    ),
    (
        "v 10500 2\nX heaprec\n# thread 0\nt 1 0\n+ 10 1 10000\n- 10000\nt 2 0\n",
        Verdict::No { line: 7 },
    ),
    (
        "v 10500 2\nX heaprec\n# thread 0\nt 1 0\n+ 10 1 10000\n- 10000\n+ 20 1 10010\n- 10010\n",
        Verdict::No { line: 9 },
    ),
    (
        "v 10500 2\nX heaprec\n# thread 0\nt 1 0\n+ 10 1 10000\n+ 20 1 10010\n",
        Verdict::No { line: 6 },
    ),
];
