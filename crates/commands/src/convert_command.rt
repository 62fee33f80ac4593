//! `convert`: what one DHAT profile or Massif file is converted to.
ghost use Rattle.std.specs.Prelude.{option_map, ◌≡◌};
ghost use Rattle.commands.specs.ConvertCommand.{conversion_given, convert, snapshot_or};

use crate::command::{Command, Ran, Request, take_with_file};
use crate::key_words::key_or;
use crate::name_words::meaning_or;
use crate::number_words::number_if_given;
use command_frame::RunContext;
use command_words::{TakenWords, WordsFault};
use dhat_json::FigureKey;
use hp_outside::{Sink, Store};
use profile_reports::{Conversion, run_conversion};
use std::alloc::Global;

/// What kind of file is read.
#[derive(Clone, Copy)]
pub enum FileKind {
    Dhat,
    Massif,
}

/// What is written of it.
#[derive(Clone, Copy)]
pub enum Target {
    Folded,
    Massif,
}

/// The names of kinds of files.
const KINDS: &[(&str, FileKind)] = &[("dhat", FileKind::Dhat), ("massif", FileKind::Massif)];

/// The names of what is written.
const TARGETS: &[(&str, Target)] = &[("folded", Target::Folded), ("massif", Target::Massif)];

/// What `convert` is to do.
#[derive(Clone, Copy)]
pub struct ConvertRequest<'a> {
    /// The name of the file that is converted.
    pub file: &'a str,
    /// What it is converted to.
    pub conversion: Conversion,
}

impl Command for ConvertRequest<'_> {
    type Rest = Vec<u8>;

    ghost command = { convert };

    fn run<S: Store, O: Sink>(&self, context: &RunContext, store: &mut S, out: &mut O) -> Ran {
        run_conversion(context, self.file, self.conversion, store, out)
    }
}

impl<'a> Request<'a> for ConvertRequest<'a> {
    fn take(alloc: Global, words: &'a [String]) -> Result<TakenWords<'a>, WordsFault> {
        take_with_file(alloc, &["from", "to", "key", "snapshot"], words)
    }

    fn request_in(_words: &'a [String], taken: &TakenWords<'a>) -> Option<Self> {
        let file = taken.only_file()?;
        let from = meaning_or(FileKind::Dhat, KINDS, taken.value("from"))?;
        let to = meaning_or(Target::Folded, TARGETS, taken.value("to"))?;
        let key = key_or(taken.value("key"))?;
        let snapshot = snapshot_or(taken.value("snapshot"))?;
        let conversion = conversion_given(from, to, key, snapshot)?;
        Some(ConvertRequest { file, conversion })
    }
}

/// The conversion that is asked for: a Massif file isn't written of a Massif file.
fn conversion_given(
    from: FileKind,
    to: Target,
    key: FigureKey,
    snapshot: Option<u32>,
) -> Option<Conversion>
    ensures { result ≡ conversion_given from to key snapshot }
{
    match (from, to) {
        (FileKind::Dhat, Target::Folded) => Some(Conversion::FoldedDhat(key)),
        (FileKind::Dhat, Target::Massif) => Some(Conversion::MassifOfDhat),
        (FileKind::Massif, Target::Folded) => Some(Conversion::FoldedMassif(snapshot)),
        (FileKind::Massif, Target::Massif) => None,
    }
}

/// The number of the snapshot, where the words give one.
#[tactic(auto, unfolding(crate::specs::NumberWords::number_if_given))]
fn snapshot_or(value: Option<&str>) -> Option<Option<u32>>
    ensures { result ≡ snapshot_or (option_map (λ text. text.now) value.entry) }
{
    match number_if_given(0, 1_000_000, value)? {
        Some(number) => Some(Some(number as u32)),
        None => Some(None),
    }
}
