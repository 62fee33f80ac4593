//! The table of frames: each text once, under its place, in the order in which stacks bring them. The places of an
//! instruction's frames are kept, so that the texts of its frames are made once, however many stacks have it.
ghost use Rattle.std.specs.Prelude.{◌≡◌, ◌+◌, ◌^◌, ◌<◌, ◌≤◌, [], ◌∷◌, All, IfOk, IfSome, OnOk, Some, codes, length, slice_get};
ghost use Rattle.ht_trace.specs.IsFrame.{IsFrame};
ghost use Rattle.dhat_trace.specs.FrameTable.{AddsTexts, StandsAt, profile_frame};
ghost use Rattle.dhat_trace.specs.Segments.{Gathers};
ghost use Rattle.dhat_trace.specs.KnownPlaces.{AddsInstruction, AreKnown, AreTold, GainsFrames, IsKnown};

use crate::known_places::KnownPlaces;
use crate::place_lists::PlaceLists;
use crate::segment::{Segment, note_segment};
use crate::texts::make_utf8;
use dhat_json::Texts;
use hp_num::{NoMemory, Text};
use ht_trace::{FrameAt, Style, Tables};
use intern_tables::Names;
use std::alloc::Global;

/// The first text of a table, which stands for the root above all stacks. No frame of a trace has it.
const ROOT: &[u8] = b"[root]";

/// The texts of the frames so far, the places of an instruction's frames (none before they are asked for), and buffers
/// for the next ones.
#[derive(Drop)]
pub(crate) struct FrameTable {
    pub(crate) texts: Names,
    pub(crate) known: KnownPlaces,
    frames: Vec<FrameAt>,
    text: Vec<u8>,
    outer: Vec<usize>,
    alloc: Global,
}

impl FrameTable {
    /// The table that has the root alone, for stacks of these tables, or `NoMemory`.
    pub(crate) fn new(alloc: Global, tables: &Tables) -> Result<FrameTable, NoMemory>
        ensures root { IfOk result (λ table. table.texts ≡ codes "[root]" ∷ []) }
        ensures known { IfOk result
            (λ table. AreKnown tables.now table.texts table.known) }
    {
        let mut texts = Names::new(alloc);
        texts.intern(ROOT)?;
        let known = KnownPlaces::new(alloc, tables.instructions() as usize + 1)?;
        Ok(FrameTable {
            texts,
            known,
            frames: Vec::new(alloc),
            text: Vec::new(alloc),
            outer: Vec::new(alloc),
            alloc,
        })
    }

    /// Replaces `places` by those of the frames of a stack, from the innermost on, and `segments` by where a segment of the way outwards
    /// begins. A text that is new comes to the end of the table. Where the stack is called from one that was told before, the
    /// places go on as that one's, which are appended or whose stack is answered.
    pub(crate) fn gather(
        &mut self,
        tables: &Tables,
        told: &PlaceLists,
        stack: u32,
        places: &mut Vec<usize>,
        segments: &mut Vec<Segment>,
    ) -> Result<Option<u32>, NoMemory>
        requires held { stack ≤ length tables.now.nodes }
        requires known { AreKnown tables.now self.old.texts self.old.known }
        requires told { AreTold tables.now self.old.texts told.now }
        ensures known { OnOk result (AreKnown tables.now self.new.texts self.new.known) }
        ensures next { IfOk result (λ next. IfSome next (λ other. other < length told.now)) }
        ensures gathered { IfOk result
            (Gathers tables.now stack self.old.texts self.new.texts told.now places.new.items
            segments.new.items) }
    {
        places.clear();
        segments.clear();
        if stack == 0 {
            tables.frames_into(stack, &mut self.frames)?;
            push_places(
                tables,
                &self.frames,
                &mut self.texts,
                &mut self.text,
                places,
            )?;
            return Ok(None);
        }
        let mut at = stack;
        'outwards: while let Some((instruction, caller)) = tables.node(at) {
            if told.count(at as usize) > 0 {
                return told.go_on(at, &mut self.outer, places);
            }
            note_segment(at, places.len(), segments)?;
            self.learn(tables, instruction)?;
            places.extend_from_slice(self.known.of(instruction as usize))?;
            at = caller;
        }
        Ok(None)
    }

    /// Makes the places of an instruction's frames known.
    fn learn(&mut self, tables: &Tables, instruction: u32) -> Result<(), NoMemory>
        requires held { instruction ≤ length tables.now.instructions }
        requires known { AreKnown tables.now self.old.texts self.old.known }
        ensures known { OnOk result (AreKnown tables.now self.new.texts self.new.known) }
        ensures added { OnOk result
            (AddsInstruction tables.now instruction self.old.texts self.new.texts) }
        ensures told { OnOk result
            (IsKnown tables.now instruction self.new.texts self.new.known) }
    {
        let number = instruction as usize;
        if self.known.of(number).len() > 0 {
            return Ok(());
        }
        tables.instruction_frames_into(instruction, &mut self.frames)?;
        let mut places = Vec::new(self.alloc);
        push_places(
            tables,
            &self.frames,
            &mut self.texts,
            &mut self.text,
            &mut places,
        )?;
        self.known.set(number, &places)
    }

    /// The texts in their order, or `NoMemory`.
    pub(crate) fn into_texts(self) -> Result<Texts, NoMemory>
        ensures texts { IfOk result (λ texts. texts ≡ self.texts) }
    {
        let FrameTable { texts, alloc, .. } = self;
        copied_texts(alloc, &texts)
    }
}

fn copied_texts(alloc: Global, names: &Names) -> Result<Texts, NoMemory>
    ensures texts { IfOk result (λ texts. texts ≡ names.now) }
{
    let mut texts = Texts::new(alloc);
    'each_text: for place in 0..names.len() {
        texts.push(text_at(alloc, names, place)?)?;
    }
    Ok(texts)
}

/// Appends the places of the frames. The texts that the table lacks are added to it; `text` is a buffer.
fn push_places(
    tables: &Tables,
    frames: &[FrameAt],
    texts: &mut Names,
    text: &mut Vec<u8>,
    places: &mut Vec<usize>,
) -> Result<(), NoMemory>
    requires frames { All (λ at. IsFrame tables.now at) frames.now }
    ensures gains { OnOk result
        (GainsFrames tables.now frames.now texts.old places.old.items texts.new places.new.items) }
{
    'each_frame: for at in frames {
        places.push(place_of(tables, at, texts, text)?)?;
    }
    Ok(())
}

/// The place of a frame's text, which is added where the table lacks it. `text` is a buffer.
fn place_of(
    tables: &Tables,
    at: &FrameAt,
    texts: &mut Names,
    text: &mut Vec<u8>,
) -> Result<usize, NoMemory>
    requires frame { IsFrame tables.now at.now }
    ensures added { OnOk result
        (AddsTexts texts.old (profile_frame tables.now at.now ∷ []) texts.new) }
    ensures place { IfOk result (StandsAt texts.new (profile_frame tables.now at.now)) }
{
    text.clear();
    tables.put_frame(at, Style::Addressed, text)?;
    make_utf8(text);
    let number = texts.intern(text)?;
    Ok(number - 1)
}

/// A copy of the text at a place of the table.
fn text_at(alloc: Global, texts: &Names, place: usize) -> Result<Text, NoMemory>
    requires held { place < length texts.now }
    requires few { place < 2 ^ 63 }
    ensures text { IfOk result (λ text. slice_get texts.now place ≡ Some text) }
{
    match texts.name(place + 1) {
        Some(name) => Text::new(alloc, name),
        None => unreachable!(),
    }
}
