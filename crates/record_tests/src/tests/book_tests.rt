//! Recordings of small scripts, as texts.
ghost use Rattle.record_book.specs.Orders.{IsInterleaving};

use crate::tests::script_text::scripts_of;
use hp_num::{NoMemory, put_bytes, put_dec};
use record_book::Book;
use std::alloc::Global;
use std::process::Abort;

/// Scripts, the threads that take the first turns, by digits, before all are finished, the scripts that are finished, which are
/// the same where none stand here, and what is told of it: the trace, a line with the order, and the summary.
struct Recording {
    scripts: &'static [u8],
    threads: &'static [u8],
    finished: Option<&'static [u8]>,
    told: &'static [u8],
}

/// A block that is freed, and one of another thread.
const TWO: &[u8] = b"a 1 40 500 400\nf 1|a 1 8 400";

/// What is told where the second thread takes its turn between those of the first.
const IN_BETWEEN: &[u8] = b"\
v 10500 2\nX heaprec\n# thread 0\nt 400 0\nt 500 1\n+ 40 2 10000\n# thread 1\n+ 8 1 10040\n# thread 0\n- 10000
010
# threads: 2\n# events: 3\n# calls: 2\n# allocated: 72\n# leaked: 8 in 1 blocks\n# peak: 72 from 64 to 72
";

/// What is told where the first thread takes its turns first.
const IN_TURN: &[u8] = b"\
v 10500 2\nX heaprec\n# thread 0\nt 400 0\nt 500 1\n+ 40 2 10000\n- 10000\n# thread 1\n+ 8 1 10040
001
# threads: 2\n# events: 3\n# calls: 2\n# allocated: 72\n# leaked: 8 in 1 blocks\n# peak: 64 from 64 to 72
";

static RECORDINGS: [Recording; 9] = [
    Recording {
        scripts: b"a 1 40 500 400\nf 1\na 2 8 400",
        threads: b"",
        finished: None,
        told: b"\
v 10500 2\nX heaprec\n# thread 0\nt 400 0\nt 500 1\n+ 40 2 10000\n- 10000\n+ 8 1 10040
000
# threads: 1\n# events: 3\n# calls: 2\n# allocated: 72\n# leaked: 8 in 1 blocks\n# peak: 64 from 64 to 64
",
    },
    Recording {
        scripts: TWO,
        threads: b"010",
        finished: None,
        told: IN_BETWEEN,
    },
    Recording {
        scripts: TWO,
        threads: b"",
        finished: None,
        told: IN_TURN,
    },
    Recording {
        scripts: b"a 1 10 1\na 2 10 1\nf 1\nf 2\na 3 10 1",
        threads: b"0000",
        finished: None,
        told: b"\
v 10500 2\nX heaprec\n# thread 0\nt 1 0\n+ 10 1 10000\n+ 10 1 10010\n- 10000\n- 10010\n+ 10 1 10000
00000
# threads: 1\n# events: 5\n# calls: 3\n# allocated: 48\n# leaked: 16 in 1 blocks\n# peak: 32 from 32 to 32
",
    },
    Recording {
        scripts: b"a 1 10 1\nr 1 20 1\nr 1 20 2",
        threads: b"00",
        finished: None,
        told: b"\
v 10500 2\nX heaprec\n# thread 0\nt 1 0\n+ 10 1 10000\n- 10000\n+ 20 1 10010\n- 10010\nt 2 0\n+ 20 2 10010
00000
# threads: 1\n# events: 5\n# calls: 3\n# allocated: 80\n# leaked: 32 in 1 blocks\n# peak: 32 from 32 to 32
",
    },
    Recording {
        scripts: TWO,
        threads: b"001",
        finished: None,
        told: IN_TURN,
    },
    // The same scripts by other lines: the order stays.
    Recording {
        scripts: TWO,
        threads: b"01",
        finished: Some(b"# one\n\na 01 040 0500 400\nf 01|a 1 8 400"),
        told: IN_BETWEEN,
    },
    // Other scripts are recorded from nothing on: as many, or fewer.
    Recording {
        scripts: TWO,
        threads: b"01",
        finished: Some(b"a 1 8 400\nf 1|a 1 8 500"),
        told: b"\
v 10500 2\nX heaprec\n# thread 0\nt 400 0\n+ 8 1 10000\n- 10000\n# thread 1\nt 500 0\n+ 8 2 10000
001
# threads: 2\n# events: 3\n# calls: 2\n# allocated: 16\n# leaked: 8 in 1 blocks\n# peak: 8 from 8 to 16
",
    },
    Recording {
        scripts: TWO,
        threads: b"01",
        finished: Some(b"a 1 8 400"),
        told: b"\
v 10500 2\nX heaprec\n# thread 0\nt 400 0\n+ 8 1 10000
0
# threads: 1\n# events: 1\n# calls: 1\n# allocated: 8\n# leaked: 8 in 1 blocks\n# peak: 8 from 8 to 8
",
    },
];

/// Takes turns of these threads, given by digits, and then those that are left of thread 0, up to 64.
fn take_turns(book: &mut Book, threads: &[u8]) -> Result<(), NoMemory> {
    for digit in threads {
        let thread = u32::from(*digit & 7);
        if thread < book.threads() {
            book.step(thread)?;
        }
    }
    if book.threads() > 0 {
        book.steps(0, 64)?;
    }
    Ok(())
}

/// The book of scripts, of which threads take turns before all are finished, or others are.
fn finished(rt: &impl Abort, alloc: Global, recording: &Recording) -> Book
    ensures { IsInterleaving result.job.scripts result.order }
{
    let job = scripts_of(rt, alloc, recording.scripts);
    let mut book = Book::new(alloc, job).expect(rt, "a book");
    take_turns(&mut book, recording.threads).expect(rt, "turns");
    let text = recording.finished.unwrap_or(recording.scripts);
    let finished = scripts_of(rt, alloc, text);
    book.finish(finished).expect(rt, "a finished book")
}

/// Appends a line with the order.
fn put_order(order: &[u8], out: &mut Vec<u8>) -> Result<(), NoMemory> {
    for thread in order {
        put_dec(out, u64::from(*thread))?;
    }
    put_bytes(out, b"\n")
}

/// Appends the trace, the order and the summary.
fn put_book(book: &Book, out: &mut Vec<u8>) -> Result<(), NoMemory>
    requires { IsInterleaving book.now.job.scripts book.now.order }
{
    put_bytes(out, book.bytes())?;
    put_order(book.order(), out)?;
    book.put_summary(out)
}

/// What is told of a recording is that of the table.
fn tells(rt: &impl Abort, alloc: Global, recording: &Recording) {
    let book = finished(rt, alloc, recording);
    let mut out = Vec::new(alloc);
    put_book(&book, &mut out).expect(rt, "memory");
    assert_eq!(rt; out.as_slice(), recording.told);
}

#[test]
fn recordings(rt: HostRuntime) {
    for recording in &RECORDINGS {
        tells(&rt, rt.alloc(), recording);
    }
}
