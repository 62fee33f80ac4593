//! A DHAT profile read from the bytes of a document. The document is gone through as JSON first, and then asked for its keys
//! in the order of the format's checks.
ghost use Rattle.std.specs.Prelude.{◌≡◌, Err, IfErr, IfOk, Ok, All, IsUtf8};
ghost use Rattle.serde_json.specs.Data.{Data};
ghost use Rattle.serde_json.specs.Find.{as_str};
ghost use Rattle.serde_json.specs.Read.{read};
ghost use Rattle.dhat_json.specs.DataOf.{data_of};
ghost use Rattle.dhat_json.specs.declared.profile.Dhat.{Dhat};
ghost use Rattle.dhat_json.specs.DhatFault.{first_of, version_findings, head_findings, block_unit_findings, time_unit_findings, unit_findings, run_findings, table_findings, needed, other_kind};
ghost use Rattle.dhat_json.specs.Document.{document_of, dhat_in, dhat_in_some, IsDocument};
ghost use Rattle.dhat_json.specs.Front.{ArePointsOf, HasFrontTexts, HasRead, IsFront, front_findings, front_in};
ghost use Rattle.dhat_json.specs.IsSound.{IsWritable, HasTexts};
ghost use Rattle.dhat_json.specs.Kinds.{as_list};
ghost use Rattle.dhat_json.specs.Parts.{HasBlockTexts, HasTimeTexts, block_units_in, head_in, run_in, time_units_in, units_in};
ghost use Rattle.dhat_json.specs.ProfileIn.{table_in, text_in};
ghost use Rattle.dhat_json.specs.Reads.{Answers, Reads, UnlessNoMemory};
ghost use Rattle.dhat_json.specs.ReadsPart.{ReadsFirst, ReadsPart};

use crate::fault::DhatFault;
use crate::gathered::Gathered;
use crate::key::Key;
use crate::lists::Texts;
use crate::member::{
    read_flag, read_list, read_optional_text, read_optional_whole, read_text, read_whole,
};
use crate::parts::{BlockUnits, Front, Head, Run, TimeUnits, Units, beside, join_parts};
use crate::profile::{Dhat, VERSION};
use crate::shape::Shape;
use crate::survey::Survey;
use crate::value::{as_text, as_whole, is_object, member};
use hp_num::Text;
use json::{Scratch, Value};
use std::alloc::Global;

/// The profile that the document says, or its first fault in the order of the format's checks.
///
/// Keys that the format doesn't know are passed over, and so are those of a part that is switched off. The counts of
/// accesses are dropped. A text that isn't UTF-8, or that nests deeper than 127, is `NotJson`.
pub fn read_profile(alloc: Global, bytes: &[u8]) -> Result<Dhat, DhatFault>
    // What the document is.
    ensures exact { Answers result (document_of bytes.now) }

    // The profile.
    ensures read { IfOk result (λ dhat. IsDocument bytes.now dhat) }
    ensures only { (dhat : Dhat) → IsDocument bytes.now dhat → Answers result (Ok dhat) }
    ensures writable { IfOk result IsWritable }
{
    read_document(alloc, bytes)
}

fn read_document(alloc: Global, bytes: &[u8]) -> Result<Dhat, DhatFault>
    ensures exact { Answers result (document_of bytes.now) }
    ensures texts { IfOk result HasTexts }
{
    match str::from_utf8(bytes) {
        Ok(text) => read_text_whole(alloc, text),
        Err(_) => Err(DhatFault::NotJson),
    }
}

/// The profile of a text. Its points are read as they come, in the shape that the members before them tell. Where that
/// isn't the shape of the profile, the text is gone through once more.
fn read_text_whole(alloc: Global, text: &str) -> Result<Dhat, DhatFault>
    ensures exact { Answers result (dhat_in_some (read text.now)) }
    ensures texts { IfOk result HasTexts }
{
    let mut scratch = Scratch::new(alloc);
    let (front, gathered) = read_once(alloc, text, &mut scratch, None)?;
    let shape = front.shape();
    if gathered.fits(shape) {
        return with_points(front, gathered);
    }
    drop(front);
    drop(gathered);
    let (front, gathered) = read_once(alloc, text, &mut scratch, Some(shape))?;
    with_points(front, gathered)
}

/// What a text says but for its points, and these as far as they were read in that shape.
fn read_once(
    alloc: Global,
    text: &str,
    scratch: &mut Scratch,
    given: Option<Shape>,
) -> Result<(Front, Gathered), DhatFault>
    ensures read { IfOk result (λ parts. HasRead text.now given parts.0 parts.1) }
    ensures fault { IfErr result
        (λ fault. UnlessNoMemory fault (dhat_in_some (read text.now) ≡ Err fault)) }
{
    let survey = Survey::of(alloc, text, scratch, given)?;
    let (members, gathered) = survey.into_parts();
    let outline = Value::Object(members);
    let front = read_front(alloc, &outline);
    drop(outline);
    let (gathered, front) = beside(gathered, front)?;
    Ok((front, gathered))
}

fn read_front(alloc: Global, value: &Value) -> Result<Front, DhatFault>
    ensures read { ReadsFirst result front_findings front_in value.now }
    ensures utf8 { IfOk result HasFrontTexts }
{
    let head = read_head(alloc, value)?;
    let parts = beside(head, read_units(alloc, value))?;
    let parts = beside(parts, read_run(alloc, value))?;
    let parts = beside(parts, read_table(alloc, value))?;
    let (parts, ()) = beside(parts, check_points(value))?;
    let (((head, units), run), ftbl) = parts;
    Ok(Front {
        head,
        units,
        run,
        ftbl,
    })
}

fn read_head(alloc: Global, value: &Value) -> Result<Head, DhatFault>
    ensures read { ReadsFirst result head_findings head_in value.now }
    ensures utf8 { IfOk result (λ head. IsUtf8 head.mode × IsUtf8 head.verb) }
{
    if !is_object(value) {
        return Err(DhatFault::NotJson);
    }
    check_version(value)?;
    let mode = read_text(alloc, value, Key::Mode)?;
    let texts = beside(mode, read_text(alloc, value, Key::Verb))?;
    let (texts, bklt) = beside(texts, read_flag(value, Key::Bklt))?;
    let ((mode, verb), bkacc) = beside(texts, read_flag(value, Key::Bkacc))?;
    Ok(Head {
        mode,
        verb,
        bklt,
        bkacc,
    })
}

fn check_version(value: &Value) -> Result<(), DhatFault>
    ensures { Reads result (first_of (version_findings (data_of value.now))) tt }
{
    let Some(version) = member(value, Key::DhatFileVersion) else {
        return Err(DhatFault::MissingKey {
            point: None,
            key: Key::DhatFileVersion,
        });
    };
    match as_whole(version) {
        Some(VERSION) => Ok(()),
        _ => Err(DhatFault::WrongFileVersion),
    }
}

fn read_units(alloc: Global, value: &Value) -> Result<Units, DhatFault>
    ensures read { ReadsFirst result unit_findings units_in value.now }
    ensures utf8 { IfOk result (λ units. HasBlockTexts units.block × HasTimeTexts units.time) }
{
    let block = read_block_units(alloc, value)?;
    let (block, time) = beside(block, read_time_units(alloc, value))?;
    Ok(Units { block, time })
}

fn read_block_units(alloc: Global, value: &Value) -> Result<BlockUnits, DhatFault>
    ensures read { ReadsFirst result block_unit_findings block_units_in value.now }
    ensures utf8 { IfOk result HasBlockTexts }
{
    let bu = read_optional_text(alloc, value, Key::Bu)?;
    let texts = beside(bu, read_optional_text(alloc, value, Key::Bsu))?;
    let ((bu, bsu), bksu) = beside(texts, read_optional_text(alloc, value, Key::Bksu))?;
    Ok(BlockUnits { bu, bsu, bksu })
}

fn read_time_units(alloc: Global, value: &Value) -> Result<TimeUnits, DhatFault>
    ensures read { ReadsFirst result time_unit_findings time_units_in value.now }
    ensures utf8 { IfOk result HasTimeTexts }
{
    let tu = read_text(alloc, value, Key::Tu)?;
    let texts = beside(tu, read_text(alloc, value, Key::Mtu))?;
    let ((tu, mtu), tuth) = beside(texts, read_optional_whole(value, Key::Tuth))?;
    Ok(TimeUnits { tu, mtu, tuth })
}

fn read_run(alloc: Global, value: &Value) -> Result<Run, DhatFault>
    ensures read { ReadsFirst result run_findings run_in value.now }
    ensures utf8 { IfOk result (λ run. IsUtf8 run.cmd) }
{
    let cmd = read_text(alloc, value, Key::Cmd)?;
    let (cmd, pid) = beside(cmd, read_whole(value, None, Key::Pid))?;
    let (cmd, te) = beside(cmd, read_whole(value, None, Key::Te))?;
    let (cmd, tg) = beside(cmd, read_optional_whole(value, Key::Tg))?;
    Ok(Run { cmd, pid, te, tg })
}

fn read_table(alloc: Global, value: &Value) -> Result<Texts, DhatFault>
    ensures read { ReadsFirst result table_findings table_in value.now }
    ensures utf8 { IfOk result (All IsUtf8) }
{
    let values = read_list(value, None, Key::Ftbl)?;
    let mut texts = Texts::new(alloc);
    for text in values {
        texts.push(read_entry(alloc, text)?)?;
    }
    Ok(texts)
}

/// One text of the table.
fn read_entry(alloc: Global, value: &Value) -> Result<Text, DhatFault>
    ensures read { ReadsPart result (other_kind as_str None Key.Ftbl) text_in value.now }
    ensures utf8 { IfOk result IsUtf8 }
{
    let Some(text) = as_text(value) else {
        return Err(DhatFault::WrongKind {
            point: None,
            key: Key::Ftbl,
        });
    };
    Ok(Text::new(alloc, text.as_bytes())?)
}

fn check_points(value: &Value) -> Result<(), DhatFault>
    ensures { Reads result (needed as_list None Key.Pps (data_of value.now)) tt }
{
    match read_list(value, None, Key::Pps) {
        Ok(_) => Ok(()),
        Err(fault) => Err(fault),
    }
}

/// The profile, where the points have no fault and are few enough to be numbered.
fn with_points(front: Front, gathered: Gathered) -> Result<Dhat, DhatFault>
    ensures exact { (value : Data) → IsFront front value → ArePointsOf gathered value
        → Answers result (dhat_in value) }
    ensures texts { HasFrontTexts front → IfOk result HasTexts }
{
    if gathered.count == u32::MAX {
        drop(front);
        drop(gathered);
        return Err(DhatFault::TooMany);
    }
    match gathered.fault {
        Some(fault) => {
            drop(front);
            drop(gathered);
            Err(fault)
        }
        None => Ok(join_parts(front, gathered.points)),
    }
}
