//! The text of the modules: the lines of a modules file, in their written form.
ghost use Rattle.std.specs.Prelude.{◌≡◌, ◌^◌, ◌<◌, [], ◌++◌, length, None, IfErr, OnOk, OnErr, unwrap_or};
ghost use Rattle.ht_lines.specs.ItemContent.{content};
ghost use Rattle.record_scripts.specs.ModuleLine.{has_line_feed, is_module, module_in};
ghost use Rattle.record_scripts.specs.ModuleLines.{AreModuleLines};
ghost use Rattle.record_scripts.specs.ScriptFaults.{Tells, is_faulty};

use crate::fault::ScriptFault;
use ht_lines::{Form, Item, put_item, read_item};
use std::alloc::Global;
use std::marker::Model;

/// The file version of recorded traces, and of the lines of modules files.
pub const FILE_VERSION: u8 = 2;

/// Whole lines about modules, each with its line feed.
///
/// Contracts see it as its bytes.
#[derive(Drop)]
pub struct ModuleText {
    lines: Vec<u8>,
}

impl Model for ModuleText {
    ghost use Rattle.std.specs.Prelude.{ℕ, List};
    ghost use Rattle.record_scripts.specs.ModuleLines.{AreModuleLines};

    ghost Value = { List ℕ };

    ghost view = { λ text. text.lines.items };

    ghost invariant = { λ text. AreModuleLines text.lines.items };
}

impl ModuleText {
    /// No lines. It takes no memory.
    pub fn new(alloc: Global) -> Self
        ensures { result ≡ [] }
    {
        ModuleText {
            lines: Vec::new(alloc),
        }
    }

    /// Appends the written form of a line of a modules file, which is neither empty nor a comment.
    ///
    /// - `BadScriptLine` exactly where it is no line of a module and clears none, or has a line feed;
    /// - `NoMemory` only where memory is wanting.
    ///
    /// After a fault the text is as before.
    pub fn add(&mut self, line: &[u8]) -> Result<(), ScriptFault>
        requires { length line.now < 2 ^ 32 }
        ensures added { OnOk result (self.new ≡ self.old ++ unwrap_or (module_in line.now) []) }
        ensures no_fault { OnOk result (is_faulty (module_in line.now) ≡ None) }
        ensures fault { IfErr result (λ fault. Tells fault (is_faulty (module_in line.now))) }
        ensures unchanged { OnErr result (self.new ≡ self.old) }
    {
        if has_line_feed(line) {
            return Err(ScriptFault::BadScriptLine);
        }
        let Ok(item) = read_item(Form::Raw, FILE_VERSION, line) else {
            return Err(ScriptFault::BadScriptLine);
        };
        if !is_module(&item) {
            return Err(ScriptFault::BadScriptLine);
        }
        put_item(FILE_VERSION, &item, &mut self.lines)?;
        Ok(())
    }

    /// Its bytes.
    pub fn bytes(&self) -> &[u8]
        ensures bytes { result.now ≡ self.now }
        ensures lines { AreModuleLines self.now }
    {
        self.lines.as_slice()
    }
}

fn has_line_feed(text: &[u8]) -> bool
    ensures { result ≡ has_line_feed text.now }
{
    text.iter().any(|byte| *byte == b'\n')
}

/// Whether the item is a module, or clears all modules.
fn is_module(item: &Item) -> bool
    ensures { result ≡ is_module (content item.now) }
{
    match item {
        Item::Module { .. } => true,
        Item::ModuleClear => true,
        _ => false,
    }
}
