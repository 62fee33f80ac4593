//! Reading the named files of a recording in their order. What their lines say is the business of the reader.
ghost use Rattle.std.specs.Prelude.{◌+◌, ◌-◌, ◌^◌, ◌<◌, ◌≤◌, length, map, ◌≡◌};
ghost use Rattle.std.specs.Option.{option_copied};
ghost use Rattle.heaprec_commands.specs.declared.reader.InputKind.TheVariants.{Script as ScriptFile};
ghost use Rattle.heaprec_commands.specs.FileLines.{begun};
ghost use Rattle.heaprec_commands.specs.FilesPlan.{file_front, front_of, modules_front, scripts_front};
ghost use Rattle.heaprec_commands.specs.FileStart.{HasLimits};
ghost use Rattle.heaprec_commands.specs.FrontRead.{ReadsFront};

use crate::one_file::{NamedFile, read_file};
use crate::reader::InputKind;
use command_frame::{Halt, RunContext};
use hp_outside::{LineReader, Sink, Store};
use record_scripts::Scripts;
use std::alloc::Global;

/// The names of the files of a recording.
#[derive(Clone, Copy)]
pub struct ScriptFiles<'a> {
    /// The modules file, if there is one.
    pub modules: Option<&'a str>,
    /// The scripts, from thread 0 on.
    pub scripts: &'a [&'a str],
}

/// Reads the modules file, if there is one, and then the scripts in their order, 1 to 64 of them. All together may have as many
/// events as the limits of the run say. Nothing is written.
pub fn read_files<S: Store, O: Sink>(
    context: &RunContext,
    files: &ScriptFiles,
    store: &mut S,
    out: &mut O,
) -> Result<Scripts, Halt>
    requires opens { S.opens store.old < 2 ^ 63 }
    requires some { 1 ≤ length files.now.scripts.now }
    requires few { length files.now.scripts.now ≤ 64 }
    ensures read { ReadsFront S.Store O.Sink context.now (front_of files.now context.now)
        store.old store.new out.old out.new result }
{
    let mut lines = LineReader::new(context.alloc, &context.limits)?;
    let scripts = Scripts::new(context.alloc, context.limits.order);
    let scripts = match read_modules(context, &mut lines, files.modules, scripts, store, out) {
        Ok(scripts) => scripts,
        Err(halt) => return Err(halt),
    };
    read_scripts(context, &mut lines, files.scripts, scripts, store, out)
}

/// Reads the modules file, if there is one.
fn read_modules<S: Store, O: Sink>(
    context: &RunContext,
    lines: &mut LineReader,
    modules: Option<&str>,
    scripts: Scripts,
    store: &mut S,
    out: &mut O,
) -> Result<Scripts, Halt>
    requires opens { S.opens store.old < 2 ^ 63 }
    requires limits { HasLimits lines.old context.now.limits }
    ensures read { ReadsFront S.Store O.Sink context.now
        (modules_front (option_copied modules.entry) scripts)
        store.old store.new out.old out.new result }
    ensures limits { HasLimits lines.new context.now.limits }
{
    match modules {
        None => Ok(scripts),
        Some(name) => {
            let file = NamedFile {
                kind: InputKind::Modules,
                name,
            };
            read_file(context, lines, &file, scripts, store, out)
        }
    }
}

/// Reads scripts in their order, each of them as the next thread's.
fn read_scripts<S: Store, O: Sink>(
    context: &RunContext,
    lines: &mut LineReader,
    names: &[&str],
    scripts: Scripts,
    store: &mut S,
    out: &mut O,
) -> Result<Scripts, Halt>
    requires opens { S.opens store.old < 2 ^ 63 + 1 }
    requires few { length scripts.scripts + length names.now ≤ 64 }
    requires limits { HasLimits lines.old context.now.limits }
    ensures read { ReadsFront S.Store O.Sink context.now
        (scripts_front (map (λ name. name.now) names.now) scripts)
        store.old store.new out.old out.new result }
{
    let mut scripts = scripts;
    'each_name: for name in names {
        scripts = match read_script(context, lines, name, scripts, store, out) {
            Ok(scripts) => scripts,
            Err(halt) => return Err(halt),
        };
    }
    Ok(scripts)
}

/// Reads a script as the next thread's.
fn read_script<S: Store, O: Sink>(
    context: &RunContext,
    lines: &mut LineReader,
    name: &str,
    scripts: Scripts,
    store: &mut S,
    out: &mut O,
) -> Result<Scripts, Halt>
    requires opens { S.opens store.old < 2 ^ 64 - 1 }
    requires few { length scripts.scripts < 64 }
    requires limits { HasLimits lines.old context.now.limits }
    ensures read { ReadsFront S.Store O.Sink context.now
        (file_front ScriptFile name.now (begun scripts))
        store.old store.new out.old out.new result }
    ensures limits { HasLimits lines.new context.now.limits }
{
    let mut scripts = scripts;
    scripts.begin()?;
    let file = NamedFile {
        kind: InputKind::Script,
        name,
    };
    read_file(context, lines, &file, scripts, store, out)
}
