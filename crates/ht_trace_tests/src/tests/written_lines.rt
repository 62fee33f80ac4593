//! Lines of each kind, with the one form in which what they say is written, or why they are refused.
ghost use Rattle.std.specs.Prelude.{◌≤◌, ◌<◌, length};

use hp_num::{NoMemory, put_bytes};
use ht_lines::{Form, put_item, read_item};
use std::alloc::Global;
use std::process::Abort;

/// A file version, a line, and the written form of what it says with its line feed, or its fault.
type Line = (u8, &'static [u8], &'static [u8]);

/// Lines that say the same in traces of both forms.
static BOTH: [Line; 33] = [
    (2, b"v 10500 2", b"v 10500 2\n"),
    (1, b"v  0A", b"v a 1\n"),
    (2, b"v  0A   02 ", b"v a 2\n"),
    (2, b"x /bin/a b", b"x /bin/a b\n"),
    (2, b"X", b"X \n"),
    (3, b"X demo", b"X 4 demo\n"),
    (2, b"I 1000 3E80", b"I 1000 3e80\n"),
    (2, b"m -", b"m -\n"),
    (3, b"m  - ", b"m -\n"),
    (3, b"m 1 -", b"m -\n"),
    (3, b"m 1 - ", b"m -\n"),
    (2, b"m - 10", b"m - 10\n"),
    (3, b"m 1 - 10", b"m 1 - 10\n"),
    (2, b"m app 1000  0 01000", b"m app 1000 0 1000\n"),
    (2, b"m 1 1000", b"m 1 1000\n"),
    (1, b"m 3 a b 10", b"m 3 a b 10\n"),
    (3, b"m  3 a b 10", b"m 3 a b 10\n"),
    (3, b"m 3 10", b"m 1 3 10\n"),
    (3, b"m 0  10", b"m 0  10\n"),
    (3, b"m 0 10", b"m 1 0 10\n"),
    (
        2,
        b"m a 1 fffffffffffffffe 0",
        b"m a 1 fffffffffffffffe 0\n",
    ),
    (2, b"m a ffffffffffffffff", b"m a ffffffffffffffff\n"),
    (2, b"t 01 0", b"t 1 0\n"),
    (2, b"c 4000000000000000", b"c 4000000000000000\n"),
    (2, b"R 100", b"R 100\n"),
    (2, b"A what ever", b"A\n"),
    (3, b"S leak:f", b"S 6 leak:f\n"),
    (3, b"S 6 leak:f", b"S 6 leak:f\n"),
    (2, b"#", b"#\n"),
    (2, b"# thread 0", b"# thread 0\n"),
    (2, b"z  what", b"z  what\n"),
    (2, b"zx", b"zx\n"),
    (2, b"", b"\n"),
];

/// Lines of interpreted traces.
static INTERPRETED: [Line; 65] = [
    (2, b"s", b"s \n"),
    (3, b"s", b"s 0 \n"),
    (2, b"s 4 main", b"s 4 main\n"),
    (1, b"s 4 main", b"s 4 main\n"),
    (3, b"s 4 main", b"s 4 main\n"),
    (3, b"s main", b"s 4 main\n"),
    (3, b"s 4 mainx", b"s 7 4 mainx\n"),
    (3, b"s 5 main", b"s 6 5 main\n"),
    (3, b"s  4 main", b"s 7  4 main\n"),
    (3, b"s A 0123456789", b"s a 0123456789\n"),
    (3, b"s 5 a b c", b"s 5 a b c\n"),
    (2, b"i 400 1", b"i 400 1\n"),
    (2, b"i 1 1 2", b"i 1 1 2\n"),
    (2, b"i 400 1 2 4 14", b"i 400 1 2 4 14\n"),
    (2, b"i 1 1 2 3 4 5", b"i 1 1 2 3 4 5\n"),
    (2, b"i 1 1 2 3 4 5 6 7", b"i 1 1 2 3 4 5 6 7\n"),
    (2, b"a 64 2", b"a 64 2\n"),
    (2, b"+   0A  ", b"+ a\n"),
    (2, b"v", b"missing field"),
    (2, b"v 1 2 3", b"extra field"),
    (2, b"v 1 4", b"file version not 1 to 3"),
    (2, b"v 1 0", b"file version not 1 to 3"),
    (2, b"v g 4", b"bad field"),
    (2, b"v 1 g", b"bad field"),
    (2, b"I 1", b"missing field"),
    (2, b"I g 1 2", b"extra field"),
    (2, b"sx", b"bad field"),
    (2, b"s\tmain", b"bad field"),
    (2, b"m", b"missing field"),
    (2, b"m  ", b"missing field"),
    (2, b"m a", b"missing field"),
    (2, b"m a 1 2", b"missing field"),
    (2, b"m a g", b"bad field"),
    (2, b"m a 1 ffffffffffffffff 0", b"bad field"),
    (2, b"m a 0 ffffffffffffffff 1", b"bad field"),
    (2, b"m a 1 1 1 ffffffffffffffff 0", b"bad field"),
    (2, b"m 1 -", b"bad field"),
    (3, b"m 0 ", b"missing field"),
    (3, b"m 2 10", b"missing field"),
    (3, b"m 2 - ", b"missing field"),
    (3, b"m 3 a b", b"missing field"),
    (3, b"m 3 abcd 10", b"missing field"),
    (3, b"m 1 -x", b"bad field"),
    (2, b"i", b"missing field"),
    (2, b"i 1", b"missing field"),
    (2, b"i 1 1 2 3", b"missing field"),
    (2, b"i 1 1 2 3 4 5 6", b"missing field"),
    (2, b"i 1 g", b"bad field"),
    (2, b"t 1", b"missing field"),
    (2, b"a 1 2 3", b"extra field"),
    (2, b"+", b"missing field"),
    (2, b"+ 1 2", b"extra field"),
    (2, b"+ 40 1 1000", b"raw line"),
    (2, b"+ g h i", b"raw line"),
    (2, b"+ 1 2 3 4", b"extra field"),
    (2, b"+0", b"bad field"),
    (2, b"-", b"missing field"),
    (2, b"- 1 2", b"extra field"),
    (2, b"- 1g", b"bad field"),
    (2, b"- 10000000000000000", b"bad field"),
    (2, b"c", b"missing field"),
    (2, b"c 1 2", b"extra field"),
    (2, b"c 4000000000000001", b"bad field"),
    (2, b"R", b"missing field"),
    (2, b"Ax", b"bad field"),
];

/// Lines of raw traces.
static RAW: [Line; 19] = [
    (2, b"+ 040  2 9000", b"+ 40 2 9000\n"),
    (2, b"- 0", b"- 0\n"),
    (2, b"s main", b"interpreted line"),
    (2, b"s", b"interpreted line"),
    (2, b"sx", b"interpreted line"),
    (2, b"i 1", b"interpreted line"),
    (2, b"a 1 2", b"interpreted line"),
    (2, b"+ 0", b"interpreted line"),
    (2, b"+ g", b"interpreted line"),
    (2, b"+0", b"bad field"),
    (2, b"+", b"missing field"),
    (2, b"+ 1 2", b"missing field"),
    (2, b"+ 1 g 3", b"bad field"),
    (2, b"+ 1 2 3 4", b"extra field"),
    (2, b"-", b"missing field"),
    (2, b"- 1 2", b"extra field"),
    (2, b"t 1", b"missing field"),
    (2, b"m a 1 2", b"missing field"),
    (2, b"v 1 4", b"file version not 1 to 3"),
];

/// Appends the written form of what a line says, or its fault.
fn put_said(form: Form, version: u8, line: &[u8], out: &mut Vec<u8>) -> Result<(), NoMemory>
    requires low { 1 ≤ version }
    requires high { version ≤ 3 }
    requires short { length line.now < 100 }
{
    match read_item(form, version, line) {
        Ok(item) => put_item(version, &item, out),
        Err(fault) => put_bytes(out, fault.text().as_bytes()),
    }
}

/// A short line of a trace of the form says what stands beside it.
fn says(rt: &impl Abort, alloc: Global, form: Form, line: &Line) {
    let (version, text, want) = line;
    assert!(rt; *version >= 1);
    assert!(rt; *version <= 3);
    assert!(rt; text.len() < 100);
    let mut out = Vec::new(alloc);
    put_said(form, *version, text, &mut out).expect(rt, "memory");
    assert_eq!(rt; out.as_slice(), *want, "at {text:?}");
}

/// Each line of a trace of the form says what stands beside it.
fn say(rt: &impl Abort, alloc: Global, form: Form, lines: &[Line]) {
    for line in lines {
        says(rt, alloc, form, line);
    }
}

#[test]
fn lines_of_traces(rt: HostRuntime) {
    say(&rt, rt.alloc(), Form::Interpreted, &BOTH);
    say(&rt, rt.alloc(), Form::Raw, &BOTH);
    say(&rt, rt.alloc(), Form::Interpreted, &INTERPRETED);
    say(&rt, rt.alloc(), Form::Raw, &RAW);
}
