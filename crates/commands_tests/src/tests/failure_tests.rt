//! Outputs without room, and the place of a failed read among the lines. Each failing call of each command is in
//! `failing_calls`.

use crate::tests::transcript::{SOUND, Setting, TWO_SIZES, Transcript, play_settings};

/// Standard output has room for 7 bytes.
const FULL_OUTPUT: &str = "$ summary t
events:heapsuite: write failed
[4]
";

/// Standard error takes 9 bytes of the usage text, for words that aren't taken and for none.
const FULL_MESSAGES: &str = "$ summary
usage: he[4]
$ 
usage: he[4]
";

/// A read gives 32 bytes, and the second one fails.
const FAILING_THIRD: Setting = Setting {
    piece: 32,
    line: 19,
    failing_store_call: 3,
    ..SOUND
};

/// All bytes are read, and the next read fails: a fault of a line that was taken with its line feed, or of a line's length, is
/// told in its stead.
const FAILED_READS: &str = "> v 10500 2
> + 9
$ summary t
heapsuite: t:2: unknown allocation
[1]
> v 10500 2
> # 2345678901234567890
$ summary t
heapsuite: t:2: line too long
[6]
> # c
$ summary t
heapsuite: t: cannot read
[3]
";

/// A trace of 42 bytes, of which the second read, behind 32, fails.
const FAILED_SECOND_READ: &str = "$ summary t
heapsuite: t: cannot read
[3]
";

static RUNS: [(Setting, Transcript); 4] = [
    (
        Setting {
            out_room: 7,
            ..SOUND
        },
        ("full output", TWO_SIZES, FULL_OUTPUT),
    ),
    (
        Setting {
            err_room: 9,
            ..SOUND
        },
        ("full messages", "", FULL_MESSAGES),
    ),
    (FAILING_THIRD, ("failed reads", "", FAILED_READS)),
    (
        FAILING_THIRD,
        ("a failed second read", TWO_SIZES, FAILED_SECOND_READ),
    ),
];

#[test]
fn failed_calls(rt: HostRuntime) {
    play_settings(&rt, rt.alloc(), &RUNS);
}
