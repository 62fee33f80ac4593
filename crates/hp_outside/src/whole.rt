//! Whole files and whole outputs: all the bytes that a store has left, and all the bytes of a
//! slice into a sink. Neither looks at a byte.
ghost use Rattle.std.specs.Prelude.{◌≡◌, ◌≢◌, ◌+◌, ◌^◌, ◌<◌, ◌≤◌, ℕ, List, [], IsTrue, IfOk, OnOk, OnErr, length, vec_len, take};
ghost use Rattle.std.specs.Io.KnownBytes.{append_known, prepend_known};
ghost use Rattle.hp_outside.specs.Faults.{Faulted};
ghost use Rattle.hp_outside.specs.FaultTexts.{whole_text};
ghost use Rattle.hp_outside.specs.StoreCalls.{ReadsOn};
ghost use Rattle.hp_outside.specs.Taken.{WhereTold, LosesFront, GainsFront, GainsCutFront};
ghost use Rattle.hp_outside.specs.Whole.{WholeAnswer};
ghost use Rattle.hp_outside.specs.declared.whole.WholeFault.TheVariants.{NoMemory, ReadFailed};

use crate::limits::Limits;
use crate::sink::Sink;
use crate::span::LineFault;
use crate::store::{Failed, Store};
use std::alloc::{AllocError, Global};
use std::marker::Model;
use thiserror::Error;

/// The bytes of a file.
#[derive(Drop)]
pub struct Bytes {
    bytes: Vec<u8>,
}

impl Model for Bytes {
    ghost Value = { List ℕ };

    ghost view = { λ b. b.bytes.items };
}

impl Bytes {
    /// The bytes, in the order of the file.
    pub fn bytes(&self) -> &[u8]
        ensures { result.now ≡ self.now }
    {
        self.bytes.as_slice()
    }
}

/// Why a file was not read whole.
#[derive(Clone, Copy, Debug, PartialEq, Eq, Error)]
#[error("{}", self.text())]
pub enum WholeFault {
    /// A read failed.
    ReadFailed,
    /// More bytes are left of the file than the limit.
    InputTooLong,
    /// Memory was wanting.
    NoMemory,
}

impl WholeFault {
    /// What the fault is called, in few words: that of reading as where lines are read.
    pub fn text(self) -> &'static str
        ensures { result.now ≡ whole_text self }
    {
        match self {
            WholeFault::ReadFailed => LineFault::ReadFailed.text(),
            WholeFault::InputTooLong => LineFault::InputTooLong.text(),
            WholeFault::NoMemory => "out of memory",
        }
    }
}

impl From<AllocError> for WholeFault {
    ghost from_gives = { λ _ fault. fault ≡ NoMemory };

    fn from(_: AllocError) -> Self {
        WholeFault::NoMemory
    }
}

impl From<Failed> for WholeFault {
    ghost from_gives = { λ _ fault. fault ≡ ReadFailed };

    fn from(_: Failed) -> Self {
        WholeFault::ReadFailed
    }
}

/// How many bytes the first read asks for. The buffer doubles from there, so that the bytes of a long
/// file are moved a few times at most.
const FIRST_READ: usize = 65_536;

/// Reads all that is left of the current file, at most `limits.input` bytes of it.
///
/// `InputTooLong` comes only where more than that is left, `ReadFailed` only where the store's faults
/// rose, and no other answer where they did. `NoMemory` comes where memory is wanting: for the bytes
/// themselves, up to one more than the limit, since the buffer begins with at most 65,536 and doubles
/// when it is full. At most one byte more than the limit is taken from the store, and after a fault
/// what was taken is gone.
pub fn read_whole<S: Store>(
    alloc: Global,
    limits: &Limits,
    store: &mut S,
) -> Result<Bytes, WholeFault>
    requires { IsTrue (S.current store.old) }
    ensures reads { ReadsOn S.Store store.old store.new }
    ensures answer { WhereTold (S.left store.old)
        (λ bytes. WholeAnswer limits.now.input bytes result) }
    ensures given { IfOk result
        (λ whole. S.left store.old ≡ prepend_known whole (S.left store.new)) }
    ensures within { IfOk result (λ whole. length whole ≤ limits.now.input) }
    ensures ended { OnOk result (WhereTold (S.left store.new) (λ bytes. bytes ≡ [])) }
    ensures failed { result ≡ Err WholeFault.ReadFailed
        → Faulted (S.faults store.old) (S.faults store.new) }
    ensures sound { result ≢ Err WholeFault.ReadFailed → S.faults store.new ≡ S.faults store.old }
    ensures taken { LosesFront (S.left store.old) (S.left store.new) (limits.now.input + 1) }
{
    let most = limits.input as usize + 1;
    let mut bytes = Vec::new(alloc);
    let mut filled = 0;
    'reads: while filled < most {
        make_room(&mut bytes, filled, most)?;
        let count = store.read(&mut bytes[filled..])?;
        if count == 0 {
            bytes.truncate(filled);
            return Ok(Bytes { bytes });
        }
        filled += count;
    }
    Err(WholeFault::InputTooLong)
}

/// Lengthens a buffer that is filled to its end, to twice its length and no further than `most`.
fn make_room(bytes: &mut Vec<u8>, filled: usize, most: usize) -> Result<(), AllocError>
    requires below { filled < most }
    requires held { (filled ≤ vec_len bytes.old) × (vec_len bytes.old ≤ most) }
    requires fits { most ≤ 2 ^ 34 + 1 }
    ensures room { OnOk result (filled < vec_len bytes.new) }
    ensures held { (filled ≤ vec_len bytes.new) × (vec_len bytes.new ≤ most) }
    ensures kept { take filled bytes.new.items ≡ take filled bytes.old.items }
{
    let len = bytes.len();
    if filled < len {
        return Ok(());
    }
    let longer = (2 * len).max(FIRST_READ).min(most);
    bytes.resize(longer, 0)
}

/// Writes all the bytes. After `Failed`, which comes only where the sink's faults rose, a front
/// of them was taken, and not all. A write that failed is not tried again: where all bytes were
/// taken, the sink's faults are what they were.
pub fn write_whole<O: Sink>(sink: &mut O, bytes: &[u8]) -> Result<(), Failed>
    ensures faults { O.faults sink.old ≤ O.faults sink.new }
    ensures written { OnOk result
        (O.written sink.new ≡ append_known (O.written sink.old) bytes.now) }
    ensures front { GainsFront (O.written sink.old) (O.written sink.new) bytes.now }
    ensures cut { OnErr result (GainsCutFront (O.written sink.old) (O.written sink.new) bytes.now) }
    ensures sound { OnOk result (O.faults sink.new ≡ O.faults sink.old) }
    ensures failed { OnErr result (Faulted (O.faults sink.old) (O.faults sink.new)) }
{
    let mut done = 0;
    'pieces: while done < bytes.len() {
        done += sink.write(&bytes[done..])?;
    }
    Ok(())
}
