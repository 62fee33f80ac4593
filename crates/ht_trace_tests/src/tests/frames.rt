//! The frames of stacks, their texts, and suppressions. What is expected is one text for all stacks of a trace, a line for
//! each, so that a test is a few calls.
ghost use Rattle.ht_trace.specs.IsFrame.{IsFrame};

use crate::tests::lines::{WORKED, read_lines};
use hp_num::{NoMemory, put_bytes, put_dec};
use ht_trace::{FrameAt, LineError, Style, Tables};
use std::alloc::Global;
use std::process::Abort;

/// What is shown of a frame.
#[derive(Clone, Copy)]
enum Shown {
    Place,
    Text(Style),
    Function,
}

/// Appends the place of a frame.
fn put_place(at: &FrameAt, out: &mut Vec<u8>) -> Result<(), NoMemory> {
    put_dec(out, u64::from(at.instruction))?;
    put_bytes(out, b".")?;
    put_dec(out, u64::from(at.index))
}

/// Appends what is shown of a frame.
fn put_shown(tables: &Tables, at: &FrameAt, shown: Shown, out: &mut Vec<u8>) -> Result<(), NoMemory>
    requires { IsFrame tables.now at.now }
{
    match shown {
        Shown::Place => put_place(at, out),
        Shown::Text(style) => tables.put_frame(at, style, out),
        Shown::Function => put_bytes(out, tables.frame_function(at).unwrap_or(b"-")),
    }
}

/// Appends the line of a stack, with a blank behind each frame. The buffer is for its frames.
fn put_stack(
    rt: &impl Abort,
    tables: &Tables,
    stack: u32,
    shown: Shown,
    frames: &mut Vec<FrameAt>,
    out: &mut Vec<u8>,
) -> Result<(), NoMemory> {
    assert!(rt; stack < tables.stacks());
    tables.frames_into(stack, frames)?;
    for at in frames.iter() {
        put_shown(tables, at, shown, out)?;
        put_bytes(out, b" ")?;
    }
    put_bytes(out, b"\n")
}

/// Appends the lines of all stacks.
fn put_stacks(
    rt: &impl Abort,
    tables: &Tables,
    shown: Shown,
    frames: &mut Vec<FrameAt>,
    out: &mut Vec<u8>,
) -> Result<(), NoMemory> {
    for stack in 0..tables.stacks() {
        put_stack(rt, tables, stack, shown, frames, out)?;
    }
    Ok(())
}

/// The stacks of a trace show this text.
fn shows(rt: &impl Abort, alloc: Global, trace: &[u8], shown: Shown, want: &[u8]) {
    let mut tables = Tables::new(alloc);
    let mut frames = Vec::new(alloc);
    let mut out = Vec::new(alloc);
    read_lines(rt, &mut tables, trace).expect(rt, "a trace");
    put_stacks(rt, &tables, shown, &mut frames, &mut out).expect(rt, "memory");
    drop(tables);
    assert_eq!(rt; out.as_slice(), want);
}

/// A trace with inlined frames.
const INLINED: &[u8] = b"v 10500 2
s app
s main
s a.c
i 10 1
i 20 1 2
i 30 1 2 3 5
i 40 1 2 2 3 6
i 50 1 2 3 7 2 3 8 2 3 9
t 1 0
t 2 1
t 3 0
t 4 2
t 0 4
t 5 5";

/// A trace with frames without a function, with a file and without.
const NO_FUNCTIONS: &[u8] = b"v 10500 2
s a.c
i 1f 0
i 2a 0 0 1 6
i 3b 1
t 1 0
t 2 1
t 3 0";

/// A trace in which a name comes twice, with its size and without, and once more with bytes behind its size.
const NAMED_TWICE: &[u8] = b"v 10500 3
s 4 main
s main
s 4 mainx
i 10 0 1
i 20 0 2
i 30 0 3
t 1 0
t 2 1
t 3 0";

/// Traces, what is shown of their frames, and how.
static SHOWN: [(&[u8], Shown, &[u8]); 11] = [
    (WORKED, Shown::Place, b"0.1 \n1.0 \n2.0 1.0 \n"),
    (
        WORKED,
        Shown::Text(Style::Plain),
        b"(no stack) \nmain (a.c:20) \nf (a.c:10) main (a.c:20) \n",
    ),
    (
        WORKED,
        Shown::Text(Style::Addressed),
        b"(no stack) \n0x400: main (a.c:20) \n0x500: f (a.c:10) 0x400: main (a.c:20) \n",
    ),
    (WORKED, Shown::Function, b"- \nmain \nf main \n"),
    (
        INLINED,
        Shown::Place,
        b"0.1 \n1.0 \n2.0 1.0 \n3.0 \n4.0 4.1 2.0 1.0 \n0.0 4.0 4.1 2.0 1.0 \n5.0 5.1 5.2 0.0 4.0 4.1 2.0 1.0 \n",
    ),
    (
        INLINED,
        Shown::Text(Style::Plain),
        b"(no stack) \n0x10 in app \nmain in app 0x10 in app \nmain (a.c:5) \nmain in app main (a.c:6) main in app 0x10 in app \n?? main in app main (a.c:6) main in app 0x10 in app \nmain (a.c:7) main (a.c:8) main (a.c:9) ?? main in app main (a.c:6) main in app 0x10 in app \n",
    ),
    (
        INLINED,
        Shown::Function,
        b"- \n- \nmain - \nmain \nmain main main - \n- main main main - \nmain main main - main main main - \n",
    ),
    (
        NO_FUNCTIONS,
        Shown::Text(Style::Plain),
        b"(no stack) \n0x1f \n0x2a (a.c:6) 0x1f \n0x3b in a.c \n",
    ),
    (
        NO_FUNCTIONS,
        Shown::Text(Style::Addressed),
        b"(no stack) \n0x1f: ??? \n0x2a: ??? (a.c:6) 0x1f: ??? \n0x3b: ??? (in a.c) \n",
    ),
    (NO_FUNCTIONS, Shown::Function, b"- \n- \n- - \n- \n"),
    (
        NAMED_TWICE,
        Shown::Function,
        b"- \nmain \nmain main \n4 mainx \n",
    ),
];

#[test]
fn gives_frames(rt: HostRuntime) {
    for (trace, shown, want) in &SHOWN {
        shows(&rt, rt.alloc(), trace, *shown, want);
    }
}

/// Appends the innermost frame of a stack, the frames of its own instruction, and the stack that it is called from. The buffer is
/// for its frames.
fn put_node(
    rt: &impl Abort,
    tables: &Tables,
    stack: u32,
    frames: &mut Vec<FrameAt>,
    out: &mut Vec<u8>,
) -> Result<(), NoMemory> {
    assert!(rt; stack < tables.stacks());
    put_place(&tables.innermost_frame(stack), out)?;
    let Some((instruction, caller)) = tables.node(stack) else {
        return put_bytes(out, b"\n");
    };
    tables.instruction_frames_into(instruction, frames)?;
    put_bytes(out, b":")?;
    for at in frames.iter() {
        put_bytes(out, b" ")?;
        put_place(at, out)?;
    }
    put_bytes(out, b" from ")?;
    put_dec(out, u64::from(caller))?;
    put_bytes(out, b"\n")
}

/// Appends the nodes of all stacks, and how many instructions there are.
fn put_nodes(
    rt: &impl Abort,
    tables: &Tables,
    frames: &mut Vec<FrameAt>,
    out: &mut Vec<u8>,
) -> Result<(), NoMemory> {
    for stack in 0..tables.stacks() {
        put_node(rt, tables, stack, frames, out)?;
    }
    put_dec(out, u64::from(tables.instructions()))
}

/// A trace with a node of no instruction.
static NODES: &[u8] = b"v 10500 2\ns m\ns f\ni 10 1 2 2 3 2 2 4\ni 20 1\nt 1 0\nt 2 1\nt 0 2";

/// What `put_nodes` appends for it.
static NODES_TOLD: &[u8] = b"0.1\n1.0: 1.0 1.1 from 0\n2.0: 2.0 from 1\n0.0: 0.0 from 2\n2";

#[test]
fn tells_nodes(rt: HostRuntime) {
    let mut tables = Tables::new(rt.alloc());
    let mut frames = Vec::new(rt.alloc());
    let mut out = Vec::new(rt.alloc());
    read_lines(&rt, &mut tables, NODES).expect(&rt, "a trace");
    put_nodes(&rt, &tables, &mut frames, &mut out).expect(&rt, "memory");
    drop(tables);
    assert_eq!(rt; out.as_slice(), NODES_TOLD);
}

/// Takes the lines of a text as suppressions.
fn suppress_lines(tables: &mut Tables, text: &[u8]) -> Result<(), LineError> {
    for line in text.split(|byte| *byte == b'\n') {
        tables.suppress(line)?;
    }
    Ok(())
}

/// Adds patterns by texts, by the lines of a trace, and by a text again.
fn add_patterns(rt: &impl Abort, tables: &mut Tables) {
    let first = b"leak:main (\n\n# leak:f\nleak:\nleak:#x\nleak\n leak:f";
    suppress_lines(tables, first).expect(rt, "patterns");
    read_lines(rt, tables, b"v 10500 3\nS leak:f (\nS 4 main\nS\nS # f").expect(rt, "a trace");
    suppress_lines(tables, b"g").expect(rt, "patterns");
}

/// Appends the patterns by their numbers from 0, which none has, each with a line feed.
fn put_patterns(tables: &Tables, out: &mut Vec<u8>) -> Result<(), NoMemory> {
    for n in 0..=tables.suppressions() {
        put_bytes(out, tables.suppression(n).unwrap_or(b"none"))?;
        put_bytes(out, b"\n")?;
    }
    Ok(())
}

/// The patterns of texts and of lines in the order of the calls.
static PATTERNS: &[u8] = b"none\nmain (\n#x\nleak\n leak:f\nf (\nmain\ng\n";

#[test]
fn keeps_suppressions(rt: HostRuntime) {
    let mut tables = Tables::new(rt.alloc());
    let mut out = Vec::new(rt.alloc());
    add_patterns(&rt, &mut tables);
    put_patterns(&tables, &mut out).expect(&rt, "memory");
    drop(tables);
    assert_eq!(rt; out.as_slice(), PATTERNS);
}
