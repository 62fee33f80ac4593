//! A sink in memory with room for so many bytes, of whose calls some are to fail.
ghost use Rattle.std.specs.Prelude.{◌≡◌, ◌+◌, ◌-◌, ◌<◌, ◌≤◌, Some, IfOk, OnOk, OnErr, length, take, if◌then◌else◌};
ghost use Rattle.hp_outside.specs.Calls.{fail_also_at, next_fails, after_call};
ghost use Rattle.hp_outside.specs.MemSinkState.{new_sink, write_answer, after_flush, after_write};

use crate::calls::CallCounter;
use crate::sink::Sink;
use crate::store::Failed;
use hp_num::NoMemory;
use std::alloc::Global;
use std::marker::Model;

/// A sink in memory that tells what it took, with room for so many bytes, of whose calls some
/// are to fail.
///
/// Calls are counted from 1 over `write` and `flush`.
#[derive(Drop)]
pub struct MemSink {
    written: Vec<u8>,
    room: usize,
    calls: CallCounter,
}

impl Model for MemSink {
    ghost use Rattle.std.specs.Prelude.{◌+◌, ◌≤◌, vec_len, vec_capacity};
    ghost use Rattle.hp_outside.specs.MemSinkState.{MemSinkState, mem_sink_code};

    ghost Value = { MemSinkState };

    ghost coded = { mem_sink_code };

    ghost view = { λ s. record { written = s.written.items; room = s.room; calls = s.calls } };

    ghost invariant = { λ s. vec_len s.written + s.room ≤ vec_capacity s.written };
}

impl MemSink {
    /// An empty sink that has reserved `room` bytes, and of whose calls none is to fail.
    pub fn new(alloc: Global, room: usize) -> Result<MemSink, NoMemory>
        ensures { IfOk result (λ sink. sink ≡ new_sink room) }
    {
        let written = Vec::with_capacity(alloc, room)?;
        Ok(MemSink {
            written,
            room,
            calls: CallCounter::new(alloc),
        })
    }

    /// Names one more call that is to fail.
    pub fn fail_at(&mut self, call: u64) -> Result<(), NoMemory>
        ensures named { OnOk result
            (self.new ≡ record self.old { calls = fail_also_at self.old.calls call }) }
        ensures kept { OnErr result (self.new ≡ self.old) }
    {
        self.calls.fail_at(call)
    }

    /// The bytes taken so far.
    pub fn bytes(&self) -> &[u8]
        ensures { result.now ≡ self.now.written }
    {
        self.written.as_slice()
    }
}

impl Sink for MemSink {
    ghost written = { λ s. Some s.written };

    ghost faults = { λ s. s.calls.faults };

    /// Takes as many bytes as still fit, and takes no memory. It fails where its call is one that
    /// is to fail, and where nothing fits of a piece that is not empty.
    fn write(&mut self, piece: &[u8]) -> Result<usize, Failed>
        ensures answer { result ≡ write_answer self.old (length piece.now) }
        ensures after { self.new ≡ after_write self.old piece.now }
        ensures faults { self.old.calls.faults ≤ self.new.calls.faults }
    {
        let fails = self.calls.next_fails() || (!piece.is_empty() && self.room == 0);
        self.calls.count_call(fails);
        if fails {
            return Err(Failed);
        }
        let count = piece.len().min(self.room);
        if self.written.extend_from_slice(&piece[..count]).is_err() {
            unreachable!();
        }
        self.room -= count;
        Ok(count)
    }

    /// Fails where its call is one that is to fail.
    fn flush(&mut self) -> Result<(), Failed>
        ensures answer { result ≡ (if next_fails self.old.calls then Err (record {}) else Ok tt) }
        ensures faults { self.old.calls.faults ≤ self.new.calls.faults }
        ensures after { self.new ≡ after_flush self.old }
    {
        let fails = self.calls.next_fails();
        self.calls.count_call(fails);
        if fails {
            return Err(Failed);
        }
        Ok(())
    }
}
