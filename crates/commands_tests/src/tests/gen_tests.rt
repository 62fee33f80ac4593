//! `gen`: the worked trace of no events, that of four, and its summary, and the greatest seed and most stacks.

use crate::tests::transcript::{Transcript, play_all};

/// Of the states, bits 16 to 30 are 16838, 5758, 10113, 17515, 31051, 5627, 23010, 7419, 16212 and 4086; those behind the greatest
/// seed 15930 and 24889.
const GENERATED: &str = "$ gen --events=0 --stacks=1
v 10500 2\nX gen\ns m\ns f1\ni 1 1 2\nt 1 0\na 67f 1
[0]
$ gen --seed=1 --events=4 --stacks=1
v 10500 2\nX gen\ns m\ns f1\ni 1 1 2\nt 1 0\na 67f 1
+ 0
+ 0
+ 0
- 0
[0]
$ gen --seed 1 --events=4 --stacks=1 --run
events: 4 calls: 3 temporary: 1 allocated: 4989 peak: 4989 at event 3 leaked: 3326 in 2 blocks
[0]
$ gen --seed=2147483647 --events=0 --stacks=1
v 10500 2\nX gen\ns m\ns f1\ni 1 1 2\nt 1 0\na 13a 1
[0]
$ gen --run --seed=2147483647 --events=0 --stacks=4000
events: 0 calls: 0 temporary: 0 allocated: 0 peak: 0 at event 0 leaked: 0 in 0 blocks
[0]
";

static RUNS: [Transcript; 1] = [("gen", "", GENERATED)];

#[test]
fn generated_traces(rt: HostRuntime) {
    play_all(&rt, rt.alloc(), &RUNS);
}
