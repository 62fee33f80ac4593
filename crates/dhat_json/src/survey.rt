//! A document gone through member by member. What is asked of it later is kept, and nothing else: its points as they come,
//! its table, and what its other members are.
ghost use Rattle.std.specs.Prelude.{◌≡◌, ◌∷◌, [], ◌++◌, ◌<◌, codes, Err, IfErr, IfOk, OnOk, Some, IfSome, length};
ghost use Rattle.serde_json.specs.Data.{no_members};
ghost use Rattle.serde_json.specs.Read.{read};
ghost use Rattle.dhat_json.specs.Ahead.{TellsNone, members_ahead, value_ahead};
ghost use Rattle.dhat_json.specs.Document.{dhat_in_some};
ghost use Rattle.dhat_json.specs.Reads.{UnlessNoMemory};
ghost use Rattle.dhat_json.specs.Survey.{HasMet, HasSurveyed, Meets, MeetsMembers};

use crate::fault::DhatFault;
use crate::gathered::Gathered;
use crate::key::Key;
use crate::opening::{begins_list, begins_object};
use crate::outline::{MEMBER_DEPTH, outline_from};
use crate::shape::Shape;
use crate::value::next_value;
use hp_num::NoMemory;
use json::{Invalid, Reader, Scratch, Value};
use std::alloc::Global;

/// What is kept of a document.
#[derive(Drop)]
pub(crate) struct Survey<'a> {
    /// Its members. Their lists and objects are empty ones, but for the table.
    pub(crate) members: Vec<(&'a str, Value<'a>)>,
    /// The points of the last list of points.
    pub(crate) gathered: Gathered,
    /// In which shape points are read. Without one it is that of the flags before them, and all frames are in the table.
    pub(crate) given: Option<Shape>,
    bklt: bool,
    bkacc: bool,
}

impl<'a> Survey<'a> {
    /// Goes through the document.
    pub(crate) fn of(
        alloc: Global,
        text: &'a str,
        scratch: &'a mut Scratch,
        given: Option<Shape>,
    ) -> Result<Survey<'a>, DhatFault>
        ensures surveyed { IfOk result (λ survey. HasSurveyed survey text.now) }
        ensures given { IfOk result (λ survey. survey.given ≡ given) }
        ensures fault { IfErr result
            (λ fault. UnlessNoMemory fault (dhat_in_some (read text.now) ≡ Err fault)) }
    {
        let Ok(mut reader) = Reader::new(text, scratch) else {
            return Err(DhatFault::NoMemory);
        };
        let first = reader.next().ok_or(Invalid)?;
        if !begins_object(&first) {
            return Err(DhatFault::NotJson);
        }
        let mut survey = Survey::new(alloc, given);
        if let Err(fault) = survey.take_members(alloc, &mut reader) {
            drop(survey);
            return Err(fault);
        }
        if reader.next().is_some() {
            drop(survey);
            return Err(DhatFault::NotJson);
        }
        Ok(survey)
    }

    /// The members, and the points.
    pub(crate) fn into_parts(self) -> (Vec<(&'a str, Value<'a>)>, Gathered)
        ensures { result ≡ (self.entry.members, self.entry.gathered) }
    {
        (self.members, self.gathered)
    }

    /// Of no members.
    fn new(alloc: Global, given: Option<Shape>) -> Survey<'a>
        ensures none { HasMet result no_members }
        ensures given { result.given ≡ given }
    {
        Survey {
            members: Vec::new(alloc),
            gathered: Gathered::new(alloc, shape_of(given, false, false)),
            given,
            bklt: false,
            bkacc: false,
        }
    }

    /// Takes the members of an object and its brace.
    fn take_members(&mut self, alloc: Global, reader: &mut Reader<'a>) -> Result<(), DhatFault>
        ensures met { OnOk result (MeetsMembers self.old self.new reader.old reader.new) }
        ensures given { self.new.given ≡ self.old.given }
        ensures fault { IfErr result
            (λ fault. TellsNone fault (members_ahead MEMBER_DEPTH reader.old)) }
    {
        'members: while let Some(name) = reader.next_key()? {
            self.take(alloc, reader, name)?;
        }
        Ok(())
    }

    /// Takes the value of the next member, whose key this is.
    fn take(
        &mut self,
        alloc: Global,
        reader: &mut Reader<'a>,
        name: &'a str,
    ) -> Result<(), DhatFault>
        ensures met { OnOk result (Meets self.old self.new name.now reader.old reader.new) }
        ensures given { self.new.given ≡ self.old.given }
        ensures shorter { OnOk result (length reader.new < length reader.old) }
        ensures fault { IfErr result
            (λ fault. TellsNone fault (value_ahead MEMBER_DEPTH reader.old)) }
    {
        if name == "ftbl" {
            let table = next_value(alloc, reader, MEMBER_DEPTH)?;
            self.keep(name, table)?;
            return Ok(());
        }
        if name == "pps" {
            return self.take_points(alloc, reader, name);
        }
        let token = reader.next().ok_or(Invalid)?;
        let outline = outline_from(alloc, token, reader)?;
        self.keep(name, outline)?;
        Ok(())
    }

    /// Takes the points. Those of an earlier list are let go.
    fn take_points(
        &mut self,
        alloc: Global,
        reader: &mut Reader<'a>,
        name: &'a str,
    ) -> Result<(), DhatFault>
        requires { name.now ≡ codes "pps" }
        ensures met { OnOk result (Meets self.old self.new name.now reader.old reader.new) }
        ensures given { self.new.given ≡ self.old.given }
        ensures shorter { OnOk result (length reader.new < length reader.old) }
        ensures fault { IfErr result
            (λ fault. TellsNone fault (value_ahead MEMBER_DEPTH reader.old)) }
    {
        self.gathered = Gathered::new(alloc, shape_of(self.given, self.bklt, self.bkacc));
        let token = reader.next().ok_or(Invalid)?;
        if begins_list(&token) {
            self.gathered.take_items(alloc, reader)?;
            self.keep(name, Value::Array(Vec::new(alloc)))?;
            return Ok(());
        }
        let outline = outline_from(alloc, token, reader)?;
        self.keep(name, outline)?;
        Ok(())
    }

    fn keep(&mut self, name: &'a str, value: Value<'a>) -> Result<(), NoMemory>
        ensures kept { OnOk result
            (self.new.members.items ≡ self.old.members.items ++ (name.entry, value.entry) ∷ []) }
        ensures points { self.new.gathered ≡ self.old.gathered }
        ensures given { self.new.given ≡ self.old.given }
    {
        if name == "bklt" {
            self.bklt = is_true(&value);
        }
        if name == "bkacc" {
            self.bkacc = is_true(&value);
        }
        self.members.push((name, value))?;
        Ok(())
    }
}

/// The shape that is given, or one of these flags in which each frame is in the table.
fn shape_of(given: Option<Shape>, bklt: bool, bkacc: bool) -> Shape
    ensures { IfSome given (λ shape. result ≡ shape) }
{
    given.unwrap_or(Shape {
        bklt,
        bkacc,
        frames: usize::MAX,
    })
}

fn is_true(value: &Value) -> bool {
    matches!(value, Value::Bool(true))
}
