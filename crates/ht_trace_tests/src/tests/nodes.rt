//! Nodes and stacks: calls in a row, with one text for what they answer.

use hp_num::{NoMemory, put_bytes, put_dec, put_hex};
use stack_table::{NodeFault, Nodes};
use std::alloc::Global;
use std::process::Abort;

/// One call of nodes.
#[derive(Clone, Copy)]
enum Call {
    /// Adds a node of instruction 0x400 with so many frames, below a parent.
    Add(u64, u32),
    /// Adds a chain of so many nodes of one frame each.
    Chain(u64),
    /// Adds an instruction below a parent, with two frames.
    Push(u64, u64),
    /// Interns an instruction below a parent, with one frame.
    Intern(u64, u64),
    /// Interns a stack.
    Stack(&'static [u64]),
    /// Interns a stack of so many instructions, all alike.
    Deep(usize),
    /// Keeps the first nodes.
    Cut(u32),
    /// How many nodes there are.
    Len,
    /// The node of a number.
    Node(u32),
    /// The instructions of a stack.
    Ips(u32),
}

/// Calls in a row, and what they answer.
struct Case {
    calls: &'static [Call],
    answers: &'static [u8],
}

static CASES: [Case; 6] = [
    // Two stacks of three nodes that share the outermost one, and whose nodes were added in turns.
    Case {
        calls: &[
            Call::Push(0x100, 0),
            Call::Push(0x200, 1),
            Call::Push(0x250, 1),
            Call::Push(0x350, 3),
            Call::Push(0x300, 2),
            Call::Node(0),
            Call::Node(1),
            Call::Node(5),
            Call::Node(6),
            Call::Ips(5),
            Call::Ips(4),
            Call::Ips(3),
            Call::Ips(1),
            Call::Ips(0),
        ],
        answers: b"1, 2, 3, 4, 5, none, 100 below 0, 300 below 2, none, \
            300 200 100 , 350 250 100 , 250 100 , 100 , , ",
    },
    // Frames are summed through the parents, with no wrap, and at the limit a node of no frames is still taken.
    Case {
        calls: &[
            Call::Add(1, 1),
            Call::Add(u64::MAX, 5000),
            Call::Add(0, 4000),
            Call::Add(1, 97),
            Call::Add(1, 96),
            Call::Add(2, 1),
            Call::Add(2, 0),
            Call::Add(3, 1),
            Call::Add(0, u32::MAX),
            Call::Add(3, u32::MAX),
            Call::Add(1 << 32, 1),
            Call::Add((1 << 32) + 1, 1),
            Call::Add(4, 1),
            Call::Add(0, 4096),
            Call::Len,
        ],
        answers: b"unknown parent, unknown parent, 1, stack too deep, 2, stack too deep, 3, \
            stack too deep, stack too deep, stack too deep, unknown parent, unknown parent, \
            unknown parent, 4, 4, ",
    },
    // 4,096 nodes of one frame each are taken, and nothing below them.
    Case {
        calls: &[
            Call::Chain(4096),
            Call::Add(4096, 1),
            Call::Add(4095, 1),
            Call::Add(0, 4097),
            Call::Add(0, 4096),
        ],
        answers: b"chain, stack too deep, 4097, stack too deep, 4098, ",
    },
    // The stacks of a recorder that holds two blocks, one called through the other's stack; then the last node goes, and
    // the numbers that were given up are given again.
    Case {
        calls: &[
            Call::Stack(&[0x500, 0x400]),
            Call::Stack(&[0x400]),
            Call::Stack(&[]),
            Call::Stack(&[0x500, 0x500, 0x400]),
            Call::Len,
            Call::Cut(1),
            Call::Stack(&[0x600, 0x400]),
            Call::Stack(&[0x500, 0x400]),
            Call::Stack(&[0x600, 0x400]),
            Call::Stack(&[0x400]),
        ],
        answers: b"2, 1, 0, 3, 3, cut, 2, 3, 2, 1, ",
    },
    // Of nodes that were added alike the least answers, and a new one is looked for among all.
    Case {
        calls: &[
            Call::Push(0x100, 0),
            Call::Push(0x200, 1),
            Call::Push(0x100, 0),
            Call::Push(0x200, 3),
            Call::Intern(0x100, 0),
            Call::Intern(0x200, 1),
            Call::Intern(0x200, 3),
            Call::Intern(0x200, 0),
            Call::Intern(0x200, 0),
            Call::Intern(0x100, 6),
            Call::Intern((1 << 32) + 0x100, 0),
            Call::Intern(0x100, 1 << 32),
        ],
        answers: b"1, 2, 3, 4, 1, 2, 4, 5, 5, unknown parent, 6, unknown parent, ",
    },
    // A stack of 4,096 is taken, and one more is refused and leaves no node.
    Case {
        calls: &[
            Call::Deep(4097),
            Call::Len,
            Call::Deep(4096),
            Call::Deep(4097),
            Call::Len,
        ],
        answers: b"stack too deep, 0, 4096, stack too deep, 4096, ",
    },
];

/// Appends the number of a node, or why there is none.
fn put_number(out: &mut Vec<u8>, answer: Result<u32, NodeFault>) -> Result<(), NoMemory> {
    match answer {
        Ok(number) => put_dec(out, u64::from(number)),
        Err(fault) => put_bytes(out, fault.text().as_bytes()),
    }
}

/// Adds a chain of nodes of one frame each.
fn put_chain(out: &mut Vec<u8>, nodes: &mut Nodes, len: u64) -> Result<(), NoMemory> {
    for parent in 0..len {
        if nodes.add(0x400, parent, 1).is_err() {
            return put_bytes(out, b"refused");
        }
    }
    put_bytes(out, b"chain")
}

/// Appends a node, if there is one.
fn put_node(out: &mut Vec<u8>, node: Option<(u64, u32)>) -> Result<(), NoMemory> {
    let Some((ip, parent)) = node else {
        return put_bytes(out, b"none");
    };
    put_hex(out, ip)?;
    put_bytes(out, b" below ")?;
    put_dec(out, u64::from(parent))
}

/// Appends the instructions of a stack that is held, each with a blank behind it. The buffer holds what it held.
fn put_ips(
    out: &mut Vec<u8>,
    nodes: &Nodes,
    n: u32,
    buffer: &mut Vec<u64>,
) -> Result<(), NoMemory> {
    nodes.stack_into(n.min(nodes.len()), buffer)?;
    for ip in buffer.iter() {
        put_hex(out, *ip)?;
        put_bytes(out, b" ")?;
    }
    Ok(())
}

/// Keeps the first nodes, if there are so many.
fn put_cut(out: &mut Vec<u8>, nodes: &mut Nodes, len: u32) -> Result<(), NoMemory> {
    nodes.cut(len.min(nodes.len()));
    put_bytes(out, b"cut")
}

/// Interns a stack of so many instructions, all alike.
fn intern_deep(nodes: &mut Nodes, len: usize) -> Result<u32, NodeFault> {
    let ips = [0x400; 4097];
    nodes.intern_stack(&ips[..len.min(4097)])
}

/// Appends what one call answers.
fn put_call(
    out: &mut Vec<u8>,
    nodes: &mut Nodes,
    call: Call,
    buffer: &mut Vec<u64>,
) -> Result<(), NoMemory> {
    match call {
        Call::Add(parent, frames) => put_number(out, nodes.add(0x400, parent, frames)),
        Call::Chain(len) => put_chain(out, nodes, len),
        Call::Push(ip, parent) => put_number(out, nodes.add(ip, parent, 2)),
        Call::Intern(ip, parent) => put_number(out, nodes.intern(ip, parent, 1)),
        Call::Stack(ips) => put_number(out, nodes.intern_stack(ips)),
        Call::Deep(len) => put_number(out, intern_deep(nodes, len)),
        Call::Cut(len) => put_cut(out, nodes, len),
        Call::Len => put_dec(out, u64::from(nodes.len())),
        Call::Node(n) => put_node(out, nodes.node(n)),
        Call::Ips(n) => put_ips(out, nodes, n, buffer),
    }
}

/// Appends what calls in a row answer.
fn put_calls(
    out: &mut Vec<u8>,
    nodes: &mut Nodes,
    calls: &[Call],
    buffer: &mut Vec<u64>,
) -> Result<(), NoMemory> {
    for call in calls {
        put_call(out, nodes, *call, buffer)?;
        put_bytes(out, b", ")?;
    }
    Ok(())
}

/// Calls of new nodes have the answers of the case.
fn answers(rt: &impl Abort, alloc: Global, case: &Case) {
    let mut nodes = Nodes::new(alloc);
    let mut out = Vec::new(alloc);
    let mut buffer = Vec::new(alloc);
    put_calls(&mut out, &mut nodes, case.calls, &mut buffer).expect(rt, "memory");
    assert_eq!(rt; out.as_slice(), case.answers);
}

#[test]
fn worked_nodes(rt: HostRuntime) {
    for case in &CASES {
        answers(&rt, rt.alloc(), case);
    }
}
