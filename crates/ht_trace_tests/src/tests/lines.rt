//! Worked traces line by line. A trace is one text, and what its lines answer, in a row, is another.

use hp_num::{NoMemory, put_bytes, put_hex};
use ht_trace::{LineError, Step, Tables};
use std::alloc::Global;
use std::io::{self, Write};
use std::process::Abort;

/// A trace of two nested calls, of which each allocates 100 bytes.
pub const WORKED: &[u8] = b"v 10500 2
X demo
I 1000 3e80
s app
s main
s f
s a.c
i 400 1 2 4 14
i 500 1 3 4 a
t 1 0
t 2 1
a 64 2
a 64 1
+ 0
c 5
R 100
- 0
+ 1";

/// Reads a short line.
fn read(rt: &impl Abort, tables: &mut Tables, line: &[u8]) -> Result<Step, LineError> {
    assert!(rt; line.len() < 100);
    tables.line(line)
}

/// Reads the lines of a text, none of which is refused.
pub fn read_lines(rt: &impl Abort, tables: &mut Tables, text: &[u8]) -> Result<(), LineError> {
    for line in text.split(|byte| *byte == b'\n') {
        read(rt, tables, line)?;
    }
    Ok(())
}

/// Appends the answer to each line of a text.
fn put_answers(
    rt: &impl Abort,
    tables: &mut Tables,
    text: &[u8],
    out: &mut Vec<u8>,
) -> io::Result<()> {
    for line in text.split(|byte| *byte == b'\n') {
        let answer = read(rt, tables, line);
        write!(out, "{answer:?}, ")?;
    }
    Ok(())
}

/// Appends whether the trace may end here, how many stacks there are, the first command, and the sizes and stacks of the first
/// three infos.
fn put_tables(tables: &Tables, out: &mut Vec<u8>) -> io::Result<()> {
    let end = tables.end();
    let stacks = tables.stacks();
    write!(out, "end {end:?}, stacks {stacks}, command ")?;
    out.write_all(tables.command().unwrap_or(b"-"))?;
    for n in 0..3 {
        let info = tables.info(n);
        write!(out, ", {info:?}")?;
    }
    Ok(())
}

/// The first lines of a trace, none of which is refused, how many nodes of a chain follow them, and the answers to the lines that
/// come then, with the tables behind them.
struct Case {
    front: &'static [u8],
    nodes: u32,
    lines: &'static [u8],
    answers: &'static [u8],
}

static CASES: [Case; 8] = [
    Case {
        front: b"#",
        nodes: 0,
        lines: WORKED,
        answers: b"\
            Ok(Nothing), Ok(Nothing), Ok(Nothing), Ok(Nothing), Ok(Nothing), Ok(Nothing), \
            Ok(Nothing), Ok(Nothing), Ok(Nothing), Ok(Stack), Ok(Stack), \
            Ok(Info { stack: 2, size: 100 }), Ok(Info { stack: 1, size: 100 }), \
            Ok(Event { event: Alloc { info: 0, stack: 2, size: 100 } }), \
            Ok(Event { event: Tick { ms: 5 } }), Ok(Nothing), \
            Ok(Event { event: Free { info: 0, stack: 2, size: 100 } }), \
            Ok(Event { event: Alloc { info: 1, stack: 1, size: 100 } }), \
            end Ok(()), stacks 3, command demo, Some((100, 2)), Some((100, 1)), None",
    },
    Case {
        front: WORKED,
        nodes: 0,
        lines: b"v 10500 2
v 10500 4
i 1 5
i 1 4 5
i 1 4 4 5 1
i 1 4 4 4 1 4 5 1
i 1 1 2 3
t 3 0
t 9 0
t 9 5
t 1 3
t 1 5
a 1 3
+ 2
- 2
+ 40 1 1000
+0
z what

X other",
        answers: b"\
            Err(SecondVersion), Err(BadVersion), Err(UnknownString), Err(UnknownString), \
            Err(UnknownString), Err(UnknownString), Err(MissingField), Err(UnknownInstruction), \
            Err(UnknownInstruction), Err(UnknownInstruction), Err(UnknownParent), \
            Err(UnknownParent), Err(UnknownTrace), Err(UnknownAllocation), \
            Err(UnknownAllocation), Err(NotInterpreted), Err(BadField), Ok(Nothing), Ok(Nothing), \
            Ok(Nothing), \
            end Ok(()), stacks 3, command demo, Some((100, 2)), Some((100, 1)), None",
    },
    // Only a comment is taken before the version line.
    Case {
        front: b"#",
        nodes: 0,
        lines: b"# made by hand",
        answers: b"\
            Ok(Nothing), \
            end Err(NoVersion), stacks 1, command -, None, None, None",
    },
    Case {
        front: b"#",
        nodes: 0,
        lines: b"# made by hand\ns main\n+0\n\nz\nv 1 9\nvx",
        answers: b"\
            Ok(Nothing), Err(NoVersion), Err(NoVersion), Err(NoVersion), Err(NoVersion), \
            Err(BadVersion), Err(BadField), \
            end Err(NoVersion), stacks 1, command -, None, None, None",
    },
    Case {
        front: b"#",
        nodes: 0,
        lines: b"# made by hand\ns main\n+0\n\nz\nv 1 9\nvx\nv 10500",
        answers: b"\
            Ok(Nothing), Err(NoVersion), Err(NoVersion), Err(NoVersion), Err(NoVersion), \
            Err(BadVersion), Err(BadField), Ok(Nothing), \
            end Ok(()), stacks 1, command -, None, None, None",
    },
    // A string that comes twice has two numbers, and a module that is named by its size is read in version 3.
    Case {
        front: b"#",
        nodes: 0,
        lines: b"v 10500 3
s 4 main
s main
m 1 -
i 1 2 2
i 1 3
i 1 0 0 0 ffffffffffffffff",
        answers: b"\
            Ok(Nothing), Ok(Nothing), Ok(Nothing), Ok(Nothing), Ok(Nothing), Err(UnknownString), \
            Ok(Nothing), \
            end Ok(()), stacks 1, command -, None, None, None",
    },
    // A chain of 4,096 nodes is taken, and nothing below it.
    Case {
        front: b"v 10500 2\ni 10 0",
        nodes: 4096,
        lines: b"t 1 1000\nt 1 fff",
        answers: b"\
            Err(TooDeep), Ok(Stack), \
            end Ok(()), stacks 4098, command -, None, None, None",
    },
    // Inlined frames count: a chain of 2,048 nodes of two frames each has 4,096.
    Case {
        front: b"v 10500 2\ns main\ni 10 0 1 1 0 6\ni 20 0",
        nodes: 2048,
        lines: b"t 2 800\nt 2 7ff\nt 1 801\nt 2 801",
        answers: b"\
            Err(TooDeep), Ok(Stack), Err(TooDeep), Ok(Stack), \
            end Ok(()), stacks 2051, command -, None, None, None",
    },
];

/// The line of a node of instruction 1.
fn put_node(line: &mut Vec<u8>, parent: u32) -> Result<(), NoMemory> {
    line.clear();
    put_bytes(line, b"t 1 ")?;
    put_hex(line, u64::from(parent))
}

/// Adds a chain of nodes to tables without nodes, by lines that are written into a buffer.
fn add_chain(
    rt: &impl Abort,
    tables: &mut Tables,
    nodes: u32,
    line: &mut Vec<u8>,
) -> Result<(), LineError> {
    for parent in 0..nodes {
        put_node(line, parent).expect(rt, "a line");
        read(rt, tables, line)?;
    }
    line.clear();
    Ok(())
}

/// The lines of a trace have the answers of the case.
fn answers(rt: &impl Abort, alloc: Global, case: &Case) {
    let mut tables = Tables::new(alloc);
    let mut out = Vec::new(alloc);
    read_lines(rt, &mut tables, case.front).expect(rt, "a front");
    add_chain(rt, &mut tables, case.nodes, &mut out).expect(rt, "a chain");
    put_answers(rt, &mut tables, case.lines, &mut out).expect(rt, "answers");
    put_tables(&tables, &mut out).expect(rt, "tables");
    assert_eq!(rt; out.as_slice(), case.answers);
}

#[test]
fn answers_to_lines(rt: HostRuntime) {
    for case in &CASES {
        answers(&rt, rt.alloc(), case);
    }
}
