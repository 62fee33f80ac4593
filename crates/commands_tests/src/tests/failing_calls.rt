//! Every call of a run that can fail, failed once: each call on the store, on standard output and on standard error, for
//! each command.

use crate::tests::transcript::{DEMO, MASSIF, Outcome, RAW, SOUND, Setting, TWO_SIZES, run_words};
use hp_num::{NoMemory, put_bytes, put_dec};
use std::alloc::Global;
use std::process::Abort;

/// On what a call fails.
#[derive(Clone, Copy)]
enum Place {
    Store,
    Out,
    Err,
}

/// The places, and how a table names them.
static PLACES: [(Place, &str); 3] = [
    (Place::Store, "store "),
    (Place::Out, "out "),
    (Place::Err, "err "),
];

/// Reads give so many bytes, and the call of this number at a place, from 1, fails.
fn failing_at(piece: usize, place: Place, call: u64) -> Setting {
    let mut setting = Setting { piece, ..SOUND };
    match place {
        Place::Store => setting.failing_store_call = call,
        Place::Out => setting.failing_out_call = call,
        Place::Err => setting.failing_err_call = call,
    }
    setting
}

/// A sound run, and one of which a call fails.
#[derive(Drop)]
struct Runs {
    whole: Outcome,
    failed: Outcome,
}

/// Appends how much of what a sound run writes to standard output stands there.
fn put_share(written: &[u8], whole: &[u8], all: &mut Vec<u8>) -> Result<(), NoMemory> {
    if !whole.starts_with(written) {
        return put_bytes(all, b"another text");
    }
    if written.is_empty() {
        return put_bytes(all, b"nothing");
    }
    if written.len() == whole.len() {
        return put_bytes(all, b"all");
    }
    put_dec(all, written.len() as u64)?;
    put_bytes(all, b" bytes")
}

/// Appends what standard error got, where that isn't what a sound run writes there.
fn put_message(message: &[u8], whole: &[u8], all: &mut Vec<u8>) -> Result<(), NoMemory> {
    if message.is_empty() {
        return put_bytes(all, b"\n");
    }
    if message == whole {
        return put_bytes(all, b" its message\n");
    }
    put_bytes(all, b" ")?;
    put_bytes(all, message)
}

/// Appends what standard output holds, the status, and the message.
fn put_failure(runs: &Runs, all: &mut Vec<u8>) -> Result<(), NoMemory> {
    put_bytes(all, b": ")?;
    put_share(&runs.failed.out, &runs.whole.out, all)?;
    put_bytes(all, b" [")?;
    put_dec(all, u64::from(runs.failed.status))?;
    put_bytes(all, b"]")?;
    put_message(&runs.failed.err, &runs.whole.err, all)
}

/// Both runs came to the same.
fn are_same(runs: &Runs) -> bool {
    runs.failed.status == runs.whole.status
        && runs.failed.out.as_slice() == runs.whole.out.as_slice()
        && runs.failed.err.as_slice() == runs.whole.err.as_slice()
}

/// The file `t`, how many bytes reads give, the words of a run, and what each failing call comes to.
type Row = (&'static str, usize, &'static str, &'static str);

/// Fails one call after another at this place, up to the first run without a failure.
fn put_failures(
    rt: &impl Abort,
    alloc: Global,
    row: &Row,
    place: &(Place, &str),
    runs: &mut Runs,
    all: &mut Vec<u8>,
) -> Result<(), NoMemory> {
    let (file, piece, words, _) = row;
    let (place, name) = place;
    for call in 1..100 {
        let setting = failing_at(*piece, *place, call);
        run_words(
            rt,
            alloc,
            &setting,
            file.as_bytes(),
            words,
            &mut runs.failed,
        );
        if are_same(runs) {
            break;
        }
        put_bytes(all, name.as_bytes())?;
        put_dec(all, call)?;
        put_failure(runs, all)?;
    }
    Ok(())
}

/// Appends what each failing call of a run comes to.
fn put_row(
    rt: &impl Abort,
    alloc: Global,
    row: &Row,
    runs: &mut Runs,
    all: &mut Vec<u8>,
) -> Result<(), NoMemory> {
    let (file, piece, words, _) = row;
    let setting = failing_at(*piece, Place::Store, 0);
    run_words(rt, alloc, &setting, file.as_bytes(), words, &mut runs.whole);
    for place in &PLACES {
        put_failures(rt, alloc, row, place, runs, all)?;
    }
    Ok(())
}

/// Each failing call of a run comes to what the row says.
fn fails_so(rt: &impl Abort, alloc: Global, row: &Row) {
    let mut runs = Runs {
        whole: Outcome::new(alloc),
        failed: Outcome::new(alloc),
    };
    let mut all = Vec::new(alloc);
    put_row(rt, alloc, row, &mut runs, &mut all).expect(rt, "memory");
    drop(runs);
    let (_, _, words, want) = row;
    assert_eq!(rt; all.as_slice(), want.as_bytes(), "at {words}");
}

const OF_NO_WORDS: &str = "out 1: nothing [4] its message
err 1: nothing [4]
err 2: nothing [4] its message
";

/// Each output is written at once and then flushed.
const OF_A_TEXT: &str = "out 1: nothing [4] heapsuite: write failed
out 2: all [4]
err 1: all [4]
";

/// Each file is read in one piece, and then its end is found.
const OF_A_TRACE: &str =
    "store 1: nothing [3] heapsuite: e: cannot open\nstore 2: nothing [3] heapsuite: e: cannot read\nstore 3: nothing [3] heapsuite: e: cannot read
out 1: nothing [4] heapsuite: write failed
out 2: all [4]
err 1: all [4]
";

const OF_SUPPRESSIONS: &str =
    "store 1: nothing [3] heapsuite: t: cannot open\nstore 2: nothing [3] heapsuite: t: cannot read\nstore 3: nothing [3] heapsuite: t: cannot read
store 4: nothing [3] heapsuite: e: cannot open\nstore 5: nothing [3] heapsuite: e: cannot read\nstore 6: nothing [3] heapsuite: e: cannot read
out 1: nothing [4] heapsuite: write failed
out 2: all [4]
err 1: all [4]
";

const OF_A_FILE: &str =
    "store 1: nothing [3] heapsuite: t: cannot open\nstore 2: nothing [3] heapsuite: t: cannot read\nstore 3: nothing [3] heapsuite: t: cannot read
out 1: nothing [4] heapsuite: write failed
out 2: all [4]
err 1: all [4]
";

/// Reads give 45 bytes at most: all of the symbols at once, and the raw trace in two pieces, of which the first has four whole
/// lines, which give seven.
const OF_AN_INTERPRETATION: &str =
    "store 1: nothing [3] heapsuite: s: cannot open\nstore 2: nothing [3] heapsuite: s: cannot read\nstore 3: nothing [3] heapsuite: s: cannot read
store 4: nothing [3] heapsuite: t: cannot open\nstore 5: nothing [3] heapsuite: t: cannot read\nstore 6: 57 bytes [3] heapsuite: t: cannot read
store 7: all [3] heapsuite: t: cannot read
out 1: nothing [4] heapsuite: write failed
out 2: all [4]
err 1: all [4]
";

static ROWS: [Row; 17] = [
    ("", 1000, "", OF_NO_WORDS),
    ("", 1000, "--help", OF_A_TEXT),
    ("", 1000, "summary e", OF_A_TRACE),
    (TWO_SIZES, 1000, "summary t", OF_A_FILE),
    ("", 1000, "print e", OF_A_TRACE),
    ("", 1000, "flame e", OF_A_TRACE),
    ("", 1000, "massif e", OF_A_TRACE),
    ("", 1000, "dhat e", OF_A_TRACE),
    ("f (\n", 1000, "print --suppressions=t e", OF_SUPPRESSIONS),
    ("", 1000, "gen --events=4 --stacks=1", OF_A_TEXT),
    ("", 1000, "gen --run --events=4 --stacks=1", OF_A_TEXT),
    (MASSIF, 1000, "ms_print t", OF_A_FILE),
    (MASSIF, 1000, "convert --from=massif t", OF_A_FILE),
    (DEMO, 1000, "dhat_view t", OF_A_FILE),
    (DEMO, 1000, "convert t", OF_A_FILE),
    (DEMO, 1000, "convert --to=massif t", OF_A_FILE),
    (RAW, 45, "interpret --symbols=s t", OF_AN_INTERPRETATION),
];

#[test]
fn failing_calls(rt: HostRuntime) {
    for row in &ROWS {
        fails_so(&rt, rt.alloc(), row);
    }
}
