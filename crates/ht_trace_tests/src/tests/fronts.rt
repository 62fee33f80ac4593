//! The lines of events and of raw traces that are found at the front of a text.

use hp_num::{NoMemory, put_bytes, put_dec, put_number_line};
use ht_lines::{EventKind, RawEvent, event_line, raw_line};
use std::alloc::Global;
use std::process::Abort;

/// Texts, and behind each the event whose line stands at its front and the line that stands there in a raw trace: as a line, with
/// the bytes that it took, or `none`.
static FRONTS: [(&[u8], &[u8]); 19] = [
    (b"+ 0\n- 0\n+ 1\n", b"+ 0\n4 none"),
    (b"- 1aF\n+ 0\n+ 0\n", b"- 1af\n6 none"),
    (b"+ ffffffff\n", b"+ ffffffff\n11 none"),
    (b"+ 100000000\n+ 0\n", b"none none"),
    (b"+ 0\n", b"none none"),
    (b"+ 40 2 9000\n+ 0\n", b"none none"),
    (b"+  0\n+ 0\n+ 0\n", b"none none"),
    (b"+ \n+ 0\n+ 0\n+ 0\n", b"none none"),
    (b"+0\n+ 0\n+ 0\n+ 0\n", b"none none"),
    (b"c 5\n+ 0\n+ 0\n+ 0\n", b"none none"),
    (
        b"+ 40 2 9000\n# ..................................................\n",
        b"none + 40 2 9000\n12",
    ),
    (
        b"- fFFFffff00000009\n# ..................................................\n",
        b"none - ffffffff00000009\n19",
    ),
    (
        b"t 0 1\n# ..................................................\n",
        b"none t 0 1\n6",
    ),
    (
        b"+ 0000000000000001 0000000000000002 fFFFffff00000009\n",
        b"none + 1 2 ffffffff00000009\n53",
    ),
    (
        b"- 00000000000000001\n# ..................................................\n",
        b"none none",
    ),
    (
        b"+ 40 2\n# ..................................................\n",
        b"none none",
    ),
    (
        b"+  40 2 9000\n# ..................................................\n",
        b"none none",
    ),
    (
        b"- 9000 \n# ..................................................\n",
        b"none none",
    ),
    (b"- 9000\n", b"none none"),
];

/// Appends the event at the front of a text.
fn put_event(text: &[u8], out: &mut Vec<u8>) -> Result<(), NoMemory> {
    let Some(event) = event_line(text) else {
        return put_bytes(out, b"none");
    };
    let kind = match event.kind {
        EventKind::Allocation => b'+',
        EventKind::Free => b'-',
    };
    put_number_line(out, kind, &[event.info])?;
    put_dec(out, event.bytes as u64)
}

/// Appends what a line of a raw trace says.
fn put_says(says: RawEvent, out: &mut Vec<u8>) -> Result<(), NoMemory> {
    match says {
        RawEvent::Allocation { size, trace, ptr } => {
            put_number_line(out, b'+', &[size, trace, ptr])
        }
        RawEvent::Free { ptr } => put_number_line(out, b'-', &[ptr]),
        RawEvent::Node { ip, parent } => put_number_line(out, b't', &[ip, parent]),
    }
}

/// Appends the line of a raw trace at the front of a text.
fn put_raw(text: &[u8], out: &mut Vec<u8>) -> Result<(), NoMemory> {
    let Some(line) = raw_line(text) else {
        return put_bytes(out, b"none");
    };
    put_says(line.says, out)?;
    put_dec(out, line.bytes as u64)
}

/// Appends both lines.
fn put_front(text: &[u8], out: &mut Vec<u8>) -> Result<(), NoMemory> {
    put_event(text, out)?;
    put_bytes(out, b" ")?;
    put_raw(text, out)
}

/// At the front of a text stands what is wanted.
fn begins(rt: &impl Abort, alloc: Global, text: &[u8], want: &[u8]) {
    let mut out = Vec::new(alloc);
    put_front(text, &mut out).expect(rt, "memory");
    assert_eq!(rt; out.as_slice(), want, "at {text:?}");
}

#[test]
fn fronts_of_texts(rt: HostRuntime) {
    for (text, want) in &FRONTS {
        begins(&rt, rt.alloc(), text, want);
    }
}
