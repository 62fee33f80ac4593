//! Reading one named file of a recording. Which files there are is no part of it.
ghost use Rattle.std.specs.Prelude.{◌≡◌, ◌-◌, ◌^◌, ◌<◌, length};
ghost use Rattle.heaprec_commands.specs.declared.reader.InputKind.TheVariants.{Script};
ghost use Rattle.heaprec_commands.specs.FilesPlan.{file_front};
ghost use Rattle.heaprec_commands.specs.FileStart.{BeginsWith, HasLimits};
ghost use Rattle.heaprec_commands.specs.FrontRead.{ReadsFront};

use crate::reader::{FileReader, InputKind, Start};
use command_frame::{Halt, RunContext, read_named_file};
use hp_outside::{LineReader, Sink, Store};
use record_scripts::Scripts;
use std::marker::{Brand, PhantomData};

/// A file, and what its lines are.
#[derive(Clone, Copy)]
pub struct NamedFile<'a> {
    pub kind: InputKind,
    pub name: &'a str,
}

/// Reads a file into scripts. For a script, one of them is open.
pub fn read_file<S: Store, O: Sink>(
    context: &RunContext,
    lines: &mut LineReader,
    file: &NamedFile,
    scripts: Scripts,
    store: &mut S,
    out: &mut O,
) -> Result<Scripts, Halt>
    requires opens { S.opens store.old < 2 ^ 64 - 1 }
    requires open { file.now.kind ≡ Script → 0 < length scripts.scripts }
    requires limits { HasLimits lines.old context.now.limits }
    ensures read { ReadsFront S.Store O.Sink context.now
        (file_front file.now.kind file.now.name.now scripts)
        store.old store.new out.old out.new result }
    ensures limits { HasLimits lines.new context.now.limits }
{
    read_behind::<Brand, S, O>(context, lines, file, scripts, store, out)
}

fn read_behind<B: Start, S: Store, O: Sink>(
    context: &RunContext,
    lines: &mut LineReader,
    file: &NamedFile,
    scripts: Scripts,
    store: &mut S,
    out: &mut O,
) -> Result<Scripts, Halt>
    requires opens { S.opens store.old < 2 ^ 64 - 1 }
    requires begins { BeginsWith B.kind B.job file.now.kind scripts }
    requires limits { HasLimits lines.old context.now.limits }
    ensures read { ReadsFront S.Store O.Sink context.now (file_front B.kind file.now.name.now B.job)
        store.old store.new out.old out.new result }
    ensures limits { HasLimits lines.new context.now.limits }
{
    let mut reader = FileReader::<B> {
        kind: file.kind,
        scripts,
        behind: PhantomData,
    };
    match read_named_file(context, lines, file.name, &mut reader, store, out) {
        Ok(()) => Ok(reader.scripts),
        Err(halt) => Err(halt),
    }
}
