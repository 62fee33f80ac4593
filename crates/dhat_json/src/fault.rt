//! Why a document is no DHAT profile, and what each reason is called. Which program tells it is no part of it.
ghost use Rattle.std.specs.Prelude.{◌≡◌, ◌++◌, OnOk, Some};
ghost use Rattle.dhat_json.specs.declared.fault.DhatFault.TheVariants.{NoMemory as OutOfMemory, NotJson};
ghost use Rattle.dhat_json.specs.FaultText.{fault_message, fault_text, frame_message, frame_text, key_message, point_text};

use crate::key::Key;
use hp_num::{NoMemory, put_bytes, put_dec};
use json::Invalid;
use thiserror::Error;

/// Why a document is no DHAT profile. Points are numbered from 0.
#[derive(Clone, Copy, Debug, PartialEq, Eq, Error)]
#[error("{}", self.text())]
pub enum DhatFault {
    /// The bytes are no JSON, or a value that is no object.
    NotJson,
    /// The version of the format is there, and isn't the whole number 2.
    WrongFileVersion,
    /// A key that must be there is missing, in the profile or in that point.
    MissingKey { point: Option<u32>, key: Key },
    /// A key's value is of another kind, in the profile or in that point. A point that is no object is told as
    /// the wrong kind of `pps` at that point.
    WrongKind { point: Option<u32>, key: Key },
    /// A frame of a point is not below the table's length.
    FrameOutOfTable { point: u32, frame: u64 },
    /// There are 2^32 - 1 points or more.
    TooMany,
    /// An allocation was refused.
    NoMemory,
}

impl DhatFault {
    /// What the fault is called, in few words, without its point, key or frame.
    pub fn text(self) -> &'static str
        ensures { result.now ≡ fault_text self }
    {
        match self {
            DhatFault::NotJson => "not JSON",
            DhatFault::WrongFileVersion => "file version not 2",
            DhatFault::MissingKey { .. } => "missing key",
            DhatFault::WrongKind { .. } => "wrong kind of",
            DhatFault::FrameOutOfTable { .. } => "out of table",
            DhatFault::TooMany => "table full",
            DhatFault::NoMemory => "out of memory",
        }
    }

    /// Appends what is told of the fault: its point, where it has one, and its key or frame.
    pub fn put_message(self, out: &mut Vec<u8>) -> Result<(), NoMemory>
        ensures { OnOk result (out.new.items ≡ out.old.items ++ fault_message self) }
    {
        let text = self.text().as_bytes();
        match self {
            DhatFault::MissingKey { point, key } => put_key_fault(point, text, key, out),
            DhatFault::WrongKind { point, key } => put_key_fault(point, text, key, out),
            DhatFault::FrameOutOfTable { point, frame } => put_frame_fault(point, frame, text, out),
            DhatFault::NotJson
            | DhatFault::WrongFileVersion
            | DhatFault::TooMany
            | DhatFault::NoMemory => put_bytes(out, text),
        }
    }
}

/// Appends the point of a fault, where it has one, what is wrong there, and the key.
fn put_key_fault(
    point: Option<u32>,
    text: &[u8],
    key: Key,
    out: &mut Vec<u8>,
) -> Result<(), NoMemory>
    ensures { OnOk result (out.new.items ≡ out.old.items ++ key_message point text.now key) }
{
    put_point(point, out)?;
    put_bytes(out, text)?;
    put_bytes(out, b" ")?;
    put_bytes(out, key.name().as_bytes())
}

/// Appends the point of a fault, where it has one.
fn put_point(point: Option<u32>, out: &mut Vec<u8>) -> Result<(), NoMemory>
    ensures { OnOk result (out.new.items ≡ out.old.items ++ point_text point) }
{
    let Some(point) = point else {
        return Ok(());
    };
    put_bytes(out, b"point ")?;
    put_dec(out, u64::from(point))?;
    put_bytes(out, b": ")
}

/// Appends the point of a fault, and that this frame of it isn't in the table.
fn put_frame_fault(point: u32, frame: u64, text: &[u8], out: &mut Vec<u8>) -> Result<(), NoMemory>
    ensures { OnOk result (out.new.items ≡ out.old.items ++ frame_message point frame text.now) }
{
    put_point(Some(point), out)?;
    put_frame(frame, out)?;
    put_bytes(out, text)
}

/// Appends which frame it is.
fn put_frame(frame: u64, out: &mut Vec<u8>) -> Result<(), NoMemory>
    ensures { OnOk result (out.new.items ≡ out.old.items ++ frame_text frame) }
{
    put_bytes(out, b"frame ")?;
    put_dec(out, frame)?;
    put_bytes(out, b" ")
}

impl From<NoMemory> for DhatFault {
    ghost from_gives = { λ _ fault. fault ≡ OutOfMemory };

    fn from(_error: NoMemory) -> DhatFault {
        DhatFault::NoMemory
    }
}

impl From<Invalid> for DhatFault {
    ghost from_gives = { λ _ fault. fault ≡ NotJson };

    fn from(_error: Invalid) -> DhatFault {
        DhatFault::NotJson
    }
}
