//! A profile written as its one JSON text. The keys of each object are written in the order of their bytes.
ghost use Rattle.std.specs.Prelude.{◌≡◌, [], Ok, Some, IfOk, OnOk, string_bytes};
ghost use Rattle.dhat_json.specs.Adds.{Adds, AddsValue};
ghost use Rattle.dhat_json.specs.Begun.{GoesOn, HasBegun, IsEnded, IsTextOf, IsWhole, with_points};
ghost use Rattle.dhat_json.specs.declared.profile.Dhat.{Dhat};
ghost use Rattle.dhat_json.specs.DhatValue.{dhat_value, dhat_text, point_value};
ghost use Rattle.dhat_json.specs.Document.{document_of, value_of};
ghost use Rattle.dhat_json.specs.IsSound.{IsWritable, HasTexts};
ghost use Rattle.dhat_json.specs.Groups.{unit_members, run_members, time_members, first_members, peak_members, count_members, last_members};

use crate::key::Key;
use crate::profile::{Dhat, Point, VERSION};
use crate::tokens::{
    put_flag, put_frames, put_optional_text, put_optional_whole, put_table, put_text, put_whole,
};
use hp_num::NoMemory;
use json::Writer;
use std::alloc::Global;

/// The profile's text: the compact JSON of one object, its keys in the order of their bytes, without the optional keys
/// that are absent. Read again it is the same profile.
pub fn profile_text(alloc: Global, dhat: &Dhat) -> Result<String, NoMemory>
    requires { IsWritable dhat.now }
    ensures text { IfOk result (λ text. string_bytes text ≡ dhat_text dhat.now) }
    ensures value { IfOk result
        (λ text. value_of (string_bytes text) ≡ Some (dhat_value dhat.now)) }
    ensures reads_back { IfOk result (λ text. document_of (string_bytes text) ≡ Ok dhat.now) }
{
    let mut out = begun(alloc, dhat)?;
    put_points(&mut out, dhat.pps.as_slice())?;
    ended(out, dhat)
}

/// The text of the profile up to its points, and none of these.
pub(crate) fn begun(alloc: Global, dhat: &Dhat) -> Result<Writer, NoMemory>
    requires { HasTexts dhat.now }
    ensures { IfOk result (λ out. HasBegun out (with_points dhat.now [])) }
{
    let mut out = Writer::new(Vec::new(alloc));
    match put_begin(&mut out, dhat) {
        Ok(()) => Ok(out),
        Err(error) => {
            drop(out);
            Err(error)
        }
    }
}

fn put_begin(out: &mut Writer, dhat: &Dhat) -> Result<(), NoMemory>
    requires texts { HasTexts dhat.now }
    requires empty { (out.old.before ≡ []) × (out.old.tokens ≡ []) }
    ensures { OnOk result (HasBegun out.new (with_points dhat.now [])) }
{
    out.begin_object()?;
    put_units(out, dhat)?;
    put_run(out, dhat)?;
    out.key(Key::Pps.name())?;
    out.begin_array()?;
    Ok(())
}

fn put_points(out: &mut Writer, points: &[Point]) -> Result<(), NoMemory>
    ensures { OnOk result (GoesOn out.old out.new points.now) }
{
    for point in points {
        put_point(out, point)?;
    }
    Ok(())
}

/// The text with what stands behind the points, which is that of the profile.
pub(crate) fn ended(mut out: Writer, dhat: &Dhat) -> Result<String, NoMemory>
    requires texts { HasTexts dhat.now }
    requires alone { out.before ≡ [] }
    ensures { IfOk result
        (λ text. IsEnded out dhat.now (λ whole. IsTextOf whole (string_bytes text))) }
{
    if let Err(error) = put_end(&mut out, dhat) {
        drop(out);
        return Err(error);
    }
    let Ok(text) = String::from_utf8(out.into_inner()) else {
        unreachable!();
    };
    Ok(text)
}

fn put_end(out: &mut Writer, dhat: &Dhat) -> Result<(), NoMemory>
    requires { HasTexts dhat.now }
    ensures before { OnOk result (out.new.before ≡ out.old.before) }
    ensures whole { OnOk result (IsEnded out.old dhat.now (IsWhole out.new)) }
{
    out.end_array()?;
    put_times(out, dhat)?;
    out.end_object()?;
    Ok(())
}

fn put_units(out: &mut Writer, dhat: &Dhat) -> Result<(), NoMemory>
    requires { HasTexts dhat.now }
    ensures { OnOk result (Adds out.old out.new (unit_members dhat.now)) }
{
    put_text(out, Key::Mtu, &dhat.mtu)?;
    put_flag(out, Key::Bkacc, dhat.bkacc)?;
    put_flag(out, Key::Bklt, dhat.bklt)?;
    put_optional_text(out, Key::Bksu, &dhat.bksu)?;
    put_optional_text(out, Key::Bsu, &dhat.bsu)?;
    put_optional_text(out, Key::Bu, &dhat.bu)
}

fn put_run(out: &mut Writer, dhat: &Dhat) -> Result<(), NoMemory>
    requires { HasTexts dhat.now }
    ensures { OnOk result (Adds out.old out.new (run_members dhat.now)) }
{
    put_text(out, Key::Cmd, &dhat.cmd)?;
    put_whole(out, Key::DhatFileVersion, VERSION)?;
    put_table(out, Key::Ftbl, &dhat.ftbl)?;
    put_text(out, Key::Mode, &dhat.mode)?;
    put_whole(out, Key::Pid, dhat.pid)
}

fn put_times(out: &mut Writer, dhat: &Dhat) -> Result<(), NoMemory>
    requires { HasTexts dhat.now }
    ensures { OnOk result (Adds out.old out.new (time_members dhat.now)) }
{
    put_whole(out, Key::Te, dhat.te)?;
    put_optional_whole(out, Key::Tg, dhat.tg)?;
    put_text(out, Key::Tu, &dhat.tu)?;
    put_optional_whole(out, Key::Tuth, dhat.tuth)?;
    put_text(out, Key::Verb, &dhat.verb)
}

pub(crate) fn put_point(out: &mut Writer, point: &Point) -> Result<(), NoMemory>
    ensures { OnOk result (AddsValue out.old out.new (point_value point.now)) }
{
    out.begin_object()?;
    put_first(out, point)?;
    put_peaks(out, point)?;
    put_counts(out, point)?;
    put_last(out, point)?;
    out.end_object()?;
    Ok(())
}

fn put_first(out: &mut Writer, point: &Point) -> Result<(), NoMemory>
    ensures { OnOk result (Adds out.old out.new (first_members point.now)) }
{
    put_optional_whole(out, Key::Eb, point.life.map(|life| life.eb))?;
    put_optional_whole(out, Key::Ebk, point.life.map(|life| life.ebk))?;
    put_frames(out, Key::Fs, &point.fs)
}

fn put_peaks(out: &mut Writer, point: &Point) -> Result<(), NoMemory>
    ensures { OnOk result (Adds out.old out.new (peak_members point.now)) }
{
    put_optional_whole(out, Key::Gb, point.life.map(|life| life.gb))?;
    put_optional_whole(out, Key::Gbk, point.life.map(|life| life.gbk))?;
    put_optional_whole(out, Key::Mb, point.life.map(|life| life.mb))?;
    put_optional_whole(out, Key::Mbk, point.life.map(|life| life.mbk))
}

fn put_counts(out: &mut Writer, point: &Point) -> Result<(), NoMemory>
    ensures { OnOk result (Adds out.old out.new (count_members point.now)) }
{
    put_optional_whole(out, Key::Rb, point.access.map(|access| access.rb))?;
    put_whole(out, Key::Tb, point.tb)?;
    put_whole(out, Key::Tbk, point.tbk)
}

fn put_last(out: &mut Writer, point: &Point) -> Result<(), NoMemory>
    ensures { OnOk result (Adds out.old out.new (last_members point.now)) }
{
    put_optional_whole(out, Key::Tl, point.life.map(|life| life.tl))?;
    put_optional_whole(out, Key::Wb, point.access.map(|access| access.wb))
}
