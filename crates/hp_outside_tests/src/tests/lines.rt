//! Lines of files: their lengths, failed reads, new files, and lines that are lent. What calls in a row answer is one text.
ghost use Rattle.std.specs.Prelude.{◌≡◌, [], ℕ, List, None, IfOk, IfSome, IsSome, IsTrue, true, false};
ghost use Rattle.hp_outside.specs.Folder.{file_of};
ghost use Rattle.hp_outside.specs.Taken.{WhereTold};

use crate::tests::stores::opens;
use hp_num::{NoMemory, put_bytes, put_dec};
use hp_outside::{Limits, LineFault, LineReader, MemStore, Span, Store, SureStore};
use std::alloc::Global;
use std::process::Abort;

/// A file, a reader's limits, how many bytes a read gives, the call of the store that fails, and what is answered. A store's call
/// of number 0 never fails, and call 1 is the open.
#[derive(Clone, Copy)]
struct Case {
    bytes: &'static str,
    input: u32,
    line: u16,
    piece: usize,
    failing_call: u64,
    want: &'static str,
}

/// Files, their limits of the input and of a line, and what four calls answer, and one on a new file of two bytes.
///
/// Each answer stands before the number of lines and a bar: a line with its line feed, `.` for the end of the file, `L` and `I` for
/// a line and an input that are too long, `R` for a failed read. Then comes `-` where the last line lacked its line feed.
static LIMITED: [(&str, u32, u16, &str); 16] = [
    ("ab\n\ncde", 99, 9, "ab\n1|\n2|cde\n3|.3|-0|ef\n1|"),
    ("abcd", 9, 3, "L0|L0|L0|L0|0|ef\n1|"),
    ("abc", 9, 3, "abc\n1|.1|.1|.1|-0|ef\n1|"),
    ("abc\n", 9, 3, "abc\n1|.1|.1|.1|0|ef\n1|"),
    ("ab\ncde", 4, 9, "ab\n1|I1|I1|I1|0|ef\n1|"),
    ("abcde", 4, 1, "L0|L0|L0|L0|0|L0|"),
    ("abc", 3, 3, "abc\n1|.1|.1|.1|-0|ef\n1|"),
    ("abc\n", 3, 3, "I0|I0|I0|I0|0|ef\n1|"),
    ("abcd", 3, 3, "I0|I0|I0|I0|0|ef\n1|"),
    ("abcde", 4, 3, "L0|L0|L0|L0|0|ef\n1|"),
    ("", 0, 9, ".0|.0|.0|.0|0|I0|"),
    ("", 1, 9, ".0|.0|.0|.0|0|I0|"),
    ("\n", 0, 9, "I0|I0|I0|I0|0|I0|"),
    ("\n", 1, 9, "\n1|.1|.1|.1|0|I0|"),
    ("a\nbcd", 9, 2, "a\n1|L1|L1|L1|0|ef\n1|"),
    ("a\nbcd", 3, 2, "a\n1|I1|I1|I1|0|ef\n1|"),
];

/// Files of which a call of the store fails, how many bytes a read gives, the call, and what is answered.
static FAILING: [(&str, usize, u64, &str); 6] = [
    ("abcdef", 2, 3, "R0|R0|R0|R0|0|ef\n1|"),
    ("abc\n", 2, 3, "R0|R0|R0|R0|0|ef\n1|"),
    ("abc", 2, 4, "R0|R0|R0|R0|0|ef\n1|"),
    ("a\nb", 9, 3, "a\n1|R1|R1|R1|0|ef\n1|"),
    ("abcd", 9, 3, "L0|L0|L0|L0|closed"),
    ("ab", 9, 4, "ab\n1|.1|.1|.1|-closed"),
];

/// Appends a line that was given with its line feed, or why there is none.
fn put_answer(
    out: &mut Vec<u8>,
    reader: &LineReader,
    answer: Result<Option<Span>, LineFault>,
) -> Result<(), NoMemory>
    requires { IfOk answer (λ place. IfSome place (λ span. reader.now.span ≡ span)) }
{
    match answer {
        Ok(Some(span)) => {
            put_bytes(out, reader.line(&span))?;
            put_bytes(out, b"\n")
        }
        Ok(None) => put_bytes(out, b"."),
        Err(LineFault::LineTooLong) => put_bytes(out, b"L"),
        Err(LineFault::InputTooLong) => put_bytes(out, b"I"),
        Err(LineFault::ReadFailed) => put_bytes(out, b"R"),
    }
}

/// Appends the number of lines.
fn put_number(out: &mut Vec<u8>, reader: &LineReader) -> Result<(), NoMemory> {
    put_dec(out, reader.number())?;
    put_bytes(out, b"|")
}

/// Appends what the next call answers.
fn put_next<S: Store>(
    out: &mut Vec<u8>,
    reader: &mut LineReader,
    store: &mut S,
) -> Result<(), NoMemory>
    requires current { IsTrue (S.current store.old) }
    requires ended { reader.old.ended ≡ true
        → WhereTold (S.left store.old) (λ bytes. bytes ≡ []) }
    ensures current { IsTrue (S.current store.new) }
    ensures ended { reader.new.ended ≡ true → WhereTold (S.left store.new) (λ bytes. bytes ≡ []) }
    ensures opens { S.opens store.new ≡ S.opens store.old }
{
    let answer = reader.next(store);
    put_answer(out, reader, answer)?;
    put_number(out, reader)
}

/// Appends what four calls answer, and whether the last line lacked its line feed.
fn put_four(
    out: &mut Vec<u8>,
    reader: &mut LineReader,
    store: &mut MemStore,
) -> Result<(), NoMemory>
    requires current { IsSome store.old.store.left }
    requires ended { reader.old.ended ≡ true
        → WhereTold store.old.store.left (λ bytes. bytes ≡ []) }
    ensures opens { store.new.store.opens ≡ store.old.store.opens }
{
    'calls: for _ in 0..4 {
        put_next(out, reader, store)?;
    }
    put_bytes(out, if reader.ended() { b"" } else { b"-" })
}

/// Adds the file of the case, whose calls may fail, and a file of two bytes.
fn add_files(store: &mut MemStore, case: &Case) -> Result<(), NoMemory>
    requires { (name : List ℕ) → file_of store.old.store.folder name ≡ None }
    ensures { store.new.store.opens ≡ store.old.store.opens }
{
    store.add("a", case.bytes.as_bytes())?;
    store.add("b", b"ef")?;
    store.fail_at(case.failing_call)
}

/// Appends what four calls answer on the first file, and one on the second one.
fn put_files(
    out: &mut Vec<u8>,
    reader: &mut LineReader,
    store: &mut MemStore,
) -> Result<(), NoMemory>
    requires opens { store.old.store.opens ≡ 0 }
    requires new { reader.old.ended ≡ false }
{
    if store.open("a").is_err() {
        return put_bytes(out, b"closed");
    }
    put_four(out, reader, store)?;
    if store.open("b").is_err() {
        return put_bytes(out, b"closed");
    }
    reader.start();
    put_number(out, reader)?;
    put_next(out, reader, store)
}

/// What is answered is that of the case.
fn answers(rt: &impl Abort, alloc: Global, case: &Case) {
    let limits = Limits {
        input: u64::from(case.input),
        line: u32::from(case.line).max(1),
        order: 1,
    };
    let mut out = Vec::new(alloc);
    let mut store = MemStore::new(alloc, case.piece.max(1));
    let mut reader = LineReader::new(alloc, &limits).expect(rt, "a reader");
    add_files(&mut store, case).expect(rt, "files");
    put_files(&mut out, &mut reader, &mut store).expect(rt, "answers");
    drop(store);
    drop(reader);
    assert_eq!(rt; out.as_slice(), case.want.as_bytes());
}

#[test]
fn limited_files(rt: HostRuntime) {
    for (bytes, input, line, want) in &LIMITED {
        for piece in [1, 2, 3, 9] {
            let case = Case {
                bytes,
                input: *input,
                line: *line,
                piece,
                failing_call: 0,
                want,
            };
            answers(&rt, rt.alloc(), &case);
        }
    }
}

#[test]
fn failed_reads(rt: HostRuntime) {
    for (bytes, piece, failing_call, want) in &FAILING {
        let case = Case {
            bytes,
            input: 9,
            line: 3,
            piece: *piece,
            failing_call: *failing_call,
            want,
        };
        answers(&rt, rt.alloc(), &case);
    }
}

/// Passes the lines that are lent, where they are the one that is awaited.
fn pass_ready(reader: &mut LineReader) {
    let ready = b"+ 1\n".as_slice();
    if reader.ready_lines() == ready {
        reader.pass(ready.len(), 1);
    }
}

/// Appends the first line and its number, that behind a line that is lent, and the limit of a line.
fn put_lent(
    out: &mut Vec<u8>,
    reader: &mut LineReader,
    store: &mut SureStore,
) -> Result<(), NoMemory>
    requires current { IsSome store.old.left }
    requires ended { reader.old.ended ≡ true → WhereTold store.old.left (λ bytes. bytes ≡ []) }
{
    put_next(out, reader, store)?;
    pass_ready(reader);
    put_number(out, reader)?;
    put_dec(out, u64::from(reader.line_limit()))?;
    put_bytes(out, if reader.ended() { b"" } else { b"-" })
}

/// Opens a name that isn't held, and a file of which a line is lent.
fn put_sure(
    rt: &impl Abort,
    out: &mut Vec<u8>,
    reader: &mut LineReader,
    store: &mut SureStore,
) -> Result<(), NoMemory>
    requires opens { store.old.opens ≡ 0 }
    requires none { (name : List ℕ) → file_of store.old.folder name ≡ None }
    requires new { reader.old.ended ≡ false }
{
    store.add("a", b"v 1 2\n+ 1\n")?;
    if let Err(fault) = store.open("c") {
        put_bytes(out, fault.text().as_bytes())?;
    }
    put_bytes(out, b"|")?;
    opens(rt, store, "a");
    put_lent(out, reader, store)
}

#[test]
fn ready_lines_are_passed(rt: HostRuntime) {
    let mut out = Vec::new(rt.alloc());
    let mut store = SureStore::new(rt.alloc(), 99);
    let mut reader = LineReader::new(rt.alloc(), &Limits::standard()).expect(&rt, "a reader");
    put_sure(&rt, &mut out, &mut reader, &mut store).expect(&rt, "memory");
    drop(reader);
    drop(store);
    assert_eq!(rt;
        out.as_slice(),
        b"no such file|v 1 2\n1|2|1048576".as_slice()
    );
}
