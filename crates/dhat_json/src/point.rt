//! A point of a profile, read from its JSON value: its first fault is the answer.
ghost use Rattle.std.specs.Prelude.{Some};
ghost use Rattle.dhat_json.specs.DataOf.{data_of};
ghost use Rattle.dhat_json.specs.DhatFault.{frame_finding, frames_findings, life_findings, access_findings, pair_findings, allowed};
ghost use Rattle.dhat_json.specs.Kinds.{as_list};
ghost use Rattle.dhat_json.specs.ProfileIn.{access_if, frames_in, life_if, pair_at, whole_in};
ghost use Rattle.dhat_json.specs.Gathered.{findings_of, point_of};
ghost use Rattle.dhat_json.specs.Reads.{Reads};
ghost use Rattle.dhat_json.specs.ReadsPart.{ReadsFirst, ReadsPart};

use crate::fault::DhatFault;
use crate::key::Key;
use crate::lists::FrameList;
use crate::member::{read_list, read_whole};
use crate::profile::{Access, Life, Point};
use crate::shape::Shape;
use crate::value::{as_list, as_whole, is_object, member};
use json::Value;
use std::alloc::Global;

/// The point that a value says, or its first fault.
pub(crate) fn read_point(
    alloc: Global,
    value: &Value,
    shape: Shape,
    number: u32,
) -> Result<Point, DhatFault>
    ensures { ReadsFirst result (findings_of shape number) (point_of shape) value.now }
{
    if !is_object(value) {
        return Err(DhatFault::WrongKind {
            point: Some(number),
            key: Key::Pps,
        });
    }
    let (tb, tbk) = read_pair(value, number, Key::Tb, Key::Tbk)?;
    let life = read_life(value, number, shape.bklt)?;
    let access = read_access(value, number, shape.bkacc)?;
    let fs = read_frames(alloc, value, number, shape.frames)?;
    Ok(Point {
        tb,
        tbk,
        life,
        access,
        fs,
    })
}

fn read_life(value: &Value, number: u32, told: bool) -> Result<Option<Life>, DhatFault>
    ensures { ReadsFirst result (life_findings told number) (life_if told) value.now }
{
    if !told {
        return Ok(None);
    }
    let tl = read_whole(value, Some(number), Key::Tl)?;
    let (mb, mbk) = read_pair(value, number, Key::Mb, Key::Mbk)?;
    let (gb, gbk) = read_pair(value, number, Key::Gb, Key::Gbk)?;
    let (eb, ebk) = read_pair(value, number, Key::Eb, Key::Ebk)?;
    Ok(Some(Life {
        tl,
        mb,
        mbk,
        gb,
        gbk,
        eb,
        ebk,
    }))
}

/// Two whole numbers that must be there, one after the other.
fn read_pair(value: &Value, number: u32, first: Key, second: Key) -> Result<(u64, u64), DhatFault>
    ensures { ReadsFirst result (pair_findings number first second) (pair_at first second)
        value.now }
{
    let first = read_whole(value, Some(number), first)?;
    let second = read_whole(value, Some(number), second)?;
    Ok((first, second))
}

fn read_access(value: &Value, number: u32, told: bool) -> Result<Option<Access>, DhatFault>
    ensures { ReadsFirst result (access_findings told number) (access_if told) value.now }
{
    if !told {
        return Ok(None);
    }
    let (rb, wb) = read_pair(value, number, Key::Rb, Key::Wb)?;
    check_counts(value, number)?;
    Ok(Some(Access { rb, wb }))
}

/// The counts of accesses may be left out, and are dropped where they stand.
fn check_counts(value: &Value, number: u32) -> Result<(), DhatFault>
    ensures { Reads result (allowed as_list (Some number) Key.Acc (data_of value.now)) tt }
{
    match member(value, Key::Acc) {
        Some(counts) if as_list(counts).is_none() => Err(DhatFault::WrongKind {
            point: Some(number),
            key: Key::Acc,
        }),
        _ => Ok(()),
    }
}

fn read_frames(
    alloc: Global,
    value: &Value,
    number: u32,
    frames: usize,
) -> Result<FrameList, DhatFault>
    ensures { ReadsFirst result (frames_findings number frames) frames_in value.now }
{
    let values = read_list(value, Some(number), Key::Fs)?;
    let mut list = FrameList::new(alloc);
    for frame in values {
        list.push(read_frame(frame, number, frames)?)?;
    }
    Ok(list)
}

fn read_frame(value: &Value, number: u32, frames: usize) -> Result<u64, DhatFault>
    ensures { ReadsPart result (frame_finding number frames) whole_in value.now }
{
    let Some(frame) = as_whole(value) else {
        return Err(DhatFault::WrongKind {
            point: Some(number),
            key: Key::Fs,
        });
    };
    if frame >= frames as u64 {
        return Err(DhatFault::FrameOutOfTable {
            point: number,
            frame,
        });
    }
    Ok(frame)
}
