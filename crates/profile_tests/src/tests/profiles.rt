//! Worked files, read and written, and files that are refused. Expected texts are worked out by hand.
use crate::tests::texts::{BLOCKS, DETAILED, FIRST_LINES, FRONT, LOOSE, LOOSE_WRITTEN};
use hp_num::{NoMemory, put_bytes, put_dec};
use massif_file::{ProfileFault, ProfileReader, put_profile};
use std::alloc::Global;
use std::process::Abort;

/// Has a reader take the first `count` lines of a text, up to one that is refused. Gives the number of the refused line, counted from
/// 1, or one more than there are.
fn read_lines(reader: &mut ProfileReader, text: &[u8], count: u64) -> u64 {
    let mut at = 1u64;
    for line in text
        .strip_suffix(b"\n")
        .unwrap_or(text)
        .split(|byte| *byte == b'\n')
    {
        if at > count || reader.line(line).is_err() {
            return at;
        }
        at = at.saturating_add(1);
    }
    at
}

/// Appends a fault and the number of its line.
fn put_fault(fault: ProfileFault, at: u64, out: &mut Vec<u8>) -> Result<(), NoMemory> {
    put_bytes(out, fault.text().as_bytes())?;
    put_bytes(out, b" in line ")?;
    put_dec(out, at)?;
    put_bytes(out, b"\n")
}

/// Appends how the lines that a reader was given end: in so many snapshots, or in a fault, whose line is the last one.
fn put_end(reader: &ProfileReader, at: u64, out: &mut Vec<u8>) -> Result<(), NoMemory> {
    match reader.profile() {
        Ok(profile) => {
            put_dec(out, profile.snaps.len() as u64)?;
            put_bytes(out, b" snapshots\n")
        }
        Err(fault) => put_fault(fault, at, out),
    }
}

/// Appends how the first lines of the worked file end.
fn put_first(alloc: Global, count: u64, out: &mut Vec<u8>) -> Result<(), NoMemory> {
    let mut reader = ProfileReader::new(alloc);
    let at = read_lines(&mut reader, DETAILED, count);
    let put = put_end(&reader, at, out);
    drop(reader);
    put
}

#[test]
fn first_lines(rt: HostRuntime) {
    let mut out = Vec::new(rt.alloc());
    for count in 0..22 {
        put_first(rt.alloc(), count, &mut out).expect(&rt, "memory");
    }
    assert_eq!(rt; out.as_slice(), FIRST_LINES.as_bytes());
}

/// Appends what is written of the profile that a reader has, or its fault, whose line is the last one.
fn put_written(reader: ProfileReader, at: u64, out: &mut Vec<u8>) -> Result<(), NoMemory> {
    match reader.finish() {
        Ok(profile) => {
            let put = put_profile(&profile, out);
            drop(profile);
            put
        }
        Err(fault) => put_fault(fault, at, out),
    }
}

/// Reads a file, writes the profile, or the fault, and compares.
fn writes(rt: &impl Abort, alloc: Global, file: &[u8], written: &[u8]) {
    let mut reader = ProfileReader::new(alloc);
    let at = read_lines(&mut reader, file, u64::MAX);
    let mut out = Vec::new(alloc);
    put_written(reader, at, &mut out).expect(rt, "memory");
    assert_eq!(rt; out.as_slice(), written);
}

/// Files, and what is written of them.
static WRITTEN: [(&[u8], &[u8]); 3] = [
    (DETAILED, DETAILED),
    (BLOCKS, BLOCKS),
    (LOOSE, LOOSE_WRITTEN),
];

#[test]
fn writes_what_it_read(rt: HostRuntime) {
    for (file, written) in &WRITTEN {
        writes(&rt, rt.alloc(), file, written);
    }
}

/// Appends a line of a tree at this level.
fn put_level(level: usize, line: &[u8], out: &mut Vec<u8>) -> Result<(), NoMemory> {
    for _ in 0..level {
        put_bytes(out, b" ")?;
    }
    put_bytes(out, line)
}

/// Appends a file whose tree has a line at each level up to this one.
fn put_levels(last: usize, file: &mut Vec<u8>) -> Result<(), NoMemory> {
    put_bytes(file, FRONT)?;
    for level in 0..last {
        put_level(level, b"n1: 5 above\n", file)?;
    }
    put_level(last, b"n0: 5 main\n", file)
}

#[test]
fn takes_level_256_at_most(rt: HostRuntime) {
    let mut file = Vec::new(rt.alloc());
    put_levels(256, &mut file).expect(&rt, "memory");
    writes(&rt, rt.alloc(), &file, &file);
    file.clear();
    put_levels(257, &mut file).expect(&rt, "memory");
    writes(&rt, rt.alloc(), &file, b"bad tree in line 269\n");
}
