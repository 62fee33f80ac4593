//! The sinks, whole pieces written to them, and the system's outputs. What calls in a row answer is one text.

use hp_num::{NoMemory, put_bytes, put_dec};
use hp_outside::{Failed, MemSink, Sink, StdSink, SureSink, write_whole};
use std::alloc::Global;
use std::io::{self, ErrorKind, Write};

/// Appends how many bytes a write took.
fn put_count(out: &mut Vec<u8>, answer: Result<usize, Failed>) -> Result<(), NoMemory> {
    match answer {
        Ok(count) => put_dec(out, count as u64),
        Err(Failed) => put_bytes(out, b"-"),
    }
}

/// Appends whether a call was done.
fn put_done(out: &mut Vec<u8>, answer: Result<(), Failed>) -> Result<(), NoMemory> {
    match answer {
        Ok(()) => put_bytes(out, b"+"),
        Err(Failed) => put_bytes(out, b"-"),
    }
}

/// Pieces that are written one after another.
static PIECES: [&[u8]; 5] = [b"abc", b"de", b"de", b"", b"e"];

/// Appends what a sink answers: five writes, two flushes, and a piece that is to be written whole.
fn put_answers<O: Sink>(out: &mut Vec<u8>, sink: &mut O) -> Result<(), NoMemory> {
    for piece in &PIECES {
        put_count(out, sink.write(piece))?;
    }
    put_done(out, sink.flush())?;
    put_done(out, sink.flush())?;
    put_done(out, write_whole(sink, b"fg"))?;
    put_bytes(out, b" ")
}

/// Appends the answers of a sink of which two calls fail, and what it took.
fn put_failing(out: &mut Vec<u8>, sink: &mut MemSink) -> Result<(), NoMemory> {
    sink.fail_at(2)?;
    sink.fail_at(6)?;
    put_answers(out, sink)?;
    put_bytes(out, sink.bytes())
}

/// Appends whether two pieces are written whole, and what the sink took.
fn put_pieces(out: &mut Vec<u8>, sink: &mut MemSink) -> Result<(), NoMemory> {
    put_done(out, write_whole(sink, b"abc"))?;
    put_done(out, write_whole(sink, b"defg"))?;
    put_bytes(out, sink.bytes())
}

/// Appends what two sinks answer that take four and five bytes.
fn put_bounded(out: &mut Vec<u8>, alloc: Global) -> Result<(), NoMemory> {
    put_failing(out, &mut MemSink::new(alloc, 4)?)?;
    put_pieces(out, &mut MemSink::new(alloc, 5)?)
}

#[test]
fn mem_sink_takes_what_fits(rt: HostRuntime) {
    let mut out = Vec::new(rt.alloc());
    put_bounded(&mut out, rt.alloc()).expect(&rt, "memory");
    assert_eq!(rt; out.as_slice(), b"3-10--+- abcd+-abcde".as_slice());
}

/// A writer that is broken.
#[derive(Drop)]
struct BrokenWriter;

impl Write for BrokenWriter {
    fn write(&mut self, _buf: &[u8]) -> io::Result<usize> {
        Err(io::Error::from(ErrorKind::Other))
    }

    fn flush(&mut self) -> io::Result<()> {
        Err(io::Error::from(ErrorKind::Other))
    }
}

/// Appends the answers of the sinks that have no bound, and what a vector took.
fn put_unbounded(out: &mut Vec<u8>, alloc: Global) -> Result<(), NoMemory> {
    put_answers(out, &mut SureSink::new())?;
    put_answers(out, &mut StdSink::new(BrokenWriter))?;
    let mut bytes = Vec::new(alloc);
    put_answers(out, &mut StdSink::new(&mut bytes))?;
    put_bytes(out, &bytes)
}

#[test]
fn std_sink_hides_no_failure(rt: HostRuntime) {
    let mut out = Vec::new(rt.alloc());
    put_unbounded(&mut out, rt.alloc()).expect(&rt, "a text");
    assert_eq!(rt;
        out.as_slice(),
        b"32201+++ -------- 32201+++ abcdedeefg".as_slice()
    );
}
