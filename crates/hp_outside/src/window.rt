//! A buffer of fixed size over the bytes of a file: those of the line that was shown last, and those
//! behind it that were taken from the store.
ghost use Rattle.std.specs.Prelude.{◌≡◌, ◌+◌, ◌*◌, ◌<◌, ◌≤◌, ℕ, [], IsTrue, IfOk, OnOk, OnErr, length, vec_len, vec_capacity, take, drop, ◌-◌};
ghost use Rattle.std.specs.Io.KnownBytes.{prepend_known};
ghost use Rattle.hp_outside.specs.Faults.{Faulted};
ghost use Rattle.hp_outside.specs.Taken.{WhereTold};
ghost use Rattle.hp_outside.specs.StoreCalls.{ReadsOn};
ghost use Rattle.hp_outside.specs.WindowCalls.{Fills, KeepsFront, KeepsHeld, MakesRoom, ReadsPart};

use crate::span::Span;
use crate::store::{Failed, Store};
use hp_num::NoMemory;
use std::alloc::Global;
use std::marker::Model;

/// How many bytes a read may fill at most. A buffer that reads fill further from its front, or a longer one, would cost
/// a processor's nearest memory.
const READ_ROOM: usize = 65_536;

/// What a buffer is lengthened by, a block at a time.
static ZEROS: [u8; 4096] = [0; 4096];

/// Bytes of a file that were taken from a store, of which at most `most` may be kept when more are
/// taken.
#[derive(Drop)]
pub(crate) struct Window {
    buffer: Vec<u8>,
    most: usize,
    shown: Span,
    start: usize,
    end: usize,
}

impl Model for Window {
    ghost use Rattle.std.specs.Prelude.{◌≡◌, ◌+◌, ◌*◌, ◌≤◌, vec_len, vec_capacity};
    ghost use Rattle.hp_outside.specs.WindowState.{WindowState, part_of};

    ghost Value = { WindowState };

    ghost view = { λ w. record {
      most = w.most;
      span = w.shown;
      shown = part_of w.buffer.items w.shown.start w.shown.end;
      kept = part_of w.buffer.items w.start w.end;
    } };

    ghost invariant = { λ w.
        (w.start ≤ w.end) × (w.end ≤ vec_len w.buffer) × (w.shown.start ≤ w.shown.end)
        × (w.shown.end ≤ vec_len w.buffer) × (2 * w.most + 65536 ≤ vec_capacity w.buffer)
        × (w.most ≤ 1048576) };
}

impl Window {
    /// An empty window that has reserved all its memory.
    pub(crate) fn new(alloc: Global, most: usize) -> Result<Window, NoMemory>
        requires { most ≤ 1048576 }
        ensures { IfOk result (λ window. (window.kept ≡ []) × (window.most ≡ most)) }
    {
        let buffer = Vec::with_capacity(alloc, 2 * most + READ_ROOM)?;
        Ok(Window {
            buffer,
            most,
            shown: Span { start: 0, end: 0 },
            start: 0,
            end: 0,
        })
    }

    /// Forgets what is kept.
    pub(crate) fn clear(&mut self)
        ensures { self.new ≡ record self.old { kept = [] } }
    {
        self.start = self.end;
    }

    /// The bytes that were taken and not yet shown.
    pub(crate) fn kept(&self) -> &[u8]
        ensures { result.now ≡ self.now.kept }
    {
        &self.buffer.as_slice()[self.start..self.end]
    }

    /// The bytes that were shown last.
    pub(crate) fn shown(&self) -> &[u8]
        ensures { result.now ≡ self.now.shown }
    {
        &self.buffer.as_slice()[self.shown.start..self.shown.end]
    }

    /// Where they stand.
    pub(crate) fn span(&self) -> Span
        ensures { result ≡ self.now.span }
    {
        self.shown
    }

    /// Shows the next `count` bytes, and drops `skipped` bytes behind them.
    pub(crate) fn show(&mut self, count: usize, skipped: usize)
        requires { count + skipped ≤ length self.old.kept }
        ensures shown { self.new.shown ≡ take count self.old.kept }
        ensures kept { self.new.kept ≡ drop (count + skipped) self.old.kept }
        ensures most { self.new.most ≡ self.old.most }
    {
        self.shown = Span {
            start: self.start,
            end: self.start + count,
        };
        self.start += count + skipped;
    }

    /// Drops the next `count` bytes; what was shown last stays.
    pub(crate) fn pass(&mut self, count: usize)
        requires { count ≤ length self.old.kept }
        ensures kept { self.new.kept ≡ drop count self.old.kept }
        ensures shown { self.new.shown ≡ self.old.shown }
        ensures span { self.new.span ≡ self.old.span }
        ensures most { self.new.most ≡ self.old.most }
    {
        self.start += count;
    }

    /// Takes more bytes from the store, at most `limit` of them, and answers their number; 0 is the
    /// end of the file.
    pub(crate) fn fill<S: Store>(&mut self, store: &mut S, limit: usize) -> Result<usize, Failed>
        requires current { IsTrue (S.current store.old) }
        requires few { length self.old.kept ≤ self.old.most }
        requires limit { 0 < limit }
        ensures store { ReadsOn S.Store store.old store.new }
        ensures filled { Fills S.Store store.old store.new self.old self.new limit result }
    {
        let kept = self.end - self.start;
        self.start = make_room(&mut self.buffer, self.start, self.end, self.most);
        self.end = self.start + kept;
        let end = self.end + limit.min(READ_ROOM);
        let count = read_part(store, &mut self.buffer, self.end, end)?;
        self.end += count;
        Ok(count)
    }
}

/// Lengthens a buffer that has room for it to `len` bytes, where it is shorter. It takes no memory.
fn fill_to(buffer: &mut Vec<u8>, len: usize)
    requires { len ≤ vec_capacity buffer.old }
    ensures front { KeepsHeld buffer.old buffer.new }
    ensures len { len ≤ vec_len buffer.new }
    ensures longer { vec_len buffer.old ≤ vec_len buffer.new }
    ensures capacity { vec_capacity buffer.old ≤ vec_capacity buffer.new }
{
    'growth: while buffer.len() < len {
        let count = (len - buffer.len()).min(ZEROS.len());
        if buffer.extend_from_slice(&ZEROS[..count]).is_err() {
            unreachable!();
        }
    }
}

/// Reads into the part of the buffer from `start` to `end`, to which it is lengthened where it is shorter.
fn read_part<S: Store>(
    store: &mut S,
    buffer: &mut Vec<u8>,
    start: usize,
    end: usize,
) -> Result<usize, Failed>
    requires current { IsTrue (S.current store.old) }
    requires part { start < end }
    requires room { (start ≤ vec_len buffer.old) × (end ≤ vec_capacity buffer.old) }
    ensures store { ReadsOn S.Store store.old store.new }
    ensures buffer { KeepsFront buffer.old buffer.new start end }
    ensures read { ReadsPart S.Store store.old store.new buffer.new start end result }
{
    fill_to(buffer, end);
    store.read(&mut buffer.as_mut_slice()[start..end])
}

/// Moves what stands from `start` to `end` to the front where no more bytes than that stand before it, and answers where it
/// stands then. There is room for `READ_ROOM` bytes behind it.
fn make_room(buffer: &mut Vec<u8>, start: usize, end: usize, most: usize) -> usize
    requires order { start ≤ end }
    requires held { end ≤ vec_len buffer.old }
    requires few { end ≤ start + most }
    requires long { 2 * most + 65536 ≤ vec_capacity buffer.old }
    ensures { MakesRoom buffer.old buffer.new start end result }
{
    if end - start > start {
        return start;
    }
    move_to_front(buffer, start, end);
    0
}

/// Moves the bytes from `start` to `end`, which are no more than stand before them, to the front.
fn move_to_front(buffer: &mut Vec<u8>, start: usize, end: usize)
    requires order { start ≤ end }
    requires held { end ≤ vec_len buffer.old }
    requires apart { end ≤ 2 * start }
    ensures moved { take (end - start) buffer.new.items
        ≡ take (end - start) (drop start buffer.old.items) }
    ensures len { vec_len buffer.new ≡ vec_len buffer.old }
    ensures capacity { vec_capacity buffer.new ≡ vec_capacity buffer.old }
{
    let count = end - start;
    let (front, back) = buffer.as_mut_slice().split_at_mut(start);
    front[..count].copy_from_slice(&back[..count]);
}
