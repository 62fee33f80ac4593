//! Messages that no run here comes to: a table is full behind 2^32 entries, and memory is ample.

use command_frame::{Halt, deliver};
use commands::heapsuite_texts;
use dhat_json::DhatFault;
use hp_num::{NoMemory, put_bytes, put_dec};
use hp_outside::MemSink;
use ht_trace::LineError;
use profile_reports::DocumentFault;
use std::alloc::Global;
use trace_reading::TraceFault;

/// Appends what is written where a run ends so, and the status in brackets.
fn put_halt(alloc: Global, halt: Halt, all: &mut Vec<u8>) -> Result<(), NoMemory> {
    let mut out = MemSink::new(alloc, 99)?;
    let mut err = MemSink::new(alloc, 99)?;
    let ran: Result<Vec<u8>, Halt> = Err(halt);
    let status = deliver(ran, &heapsuite_texts(), &mut out, &mut err);
    put_bytes(all, out.bytes())?;
    put_bytes(all, err.bytes())?;
    put_bytes(all, b"[")?;
    put_dec(all, u64::from(status))?;
    put_bytes(all, b"]\n")
}

/// Want of memory, a trace with more entries than a table holds, and a profile with more points.
fn put_halts(alloc: Global, all: &mut Vec<u8>) -> Result<(), NoMemory> {
    let texts = heapsuite_texts();
    put_halt(alloc, Halt::no_memory(), all)?;
    let fault = TraceFault::Line(LineError::TooMany);
    put_halt(alloc, Halt::at_line(alloc, &texts, "t", 7, &fault), all)?;
    let fault = DocumentFault::Document(DhatFault::TooMany);
    put_halt(alloc, Halt::at_file(alloc, &texts, "d", &fault), all)
}

static HALTS: &str =
    "heapsuite: out of memory\n[5]\nheapsuite: t:7: table full\n[6]\nheapsuite: d: table full\n[6]\n";

#[test]
fn messages(rt: HostRuntime) {
    let mut all = Vec::new(rt.alloc());
    put_halts(rt.alloc(), &mut all).expect(&rt, "memory");
    assert_eq!(rt; all.as_slice(), HALTS.as_bytes());
}
