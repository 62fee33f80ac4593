//! From the lines of a raw trace to those of the interpreted one, line by line. Files and outputs are no part of it.
#![tactic(auto, using(hp_num::proofs::Laws::extends_same, hp_num::proofs::Laws::extends_more, hp_num::proofs::Laws::extends_trans))]

ghost use Rattle.std.specs.Prelude.{◌≡◌, ℕ, ◌^◌, ◌<◌, ◌≤◌, ◌↔◌, List, [], ◌∷◌, ◌++◌, length, None, Some, Err, IsNone, IfErr, IfSome, OnOk, OnErr, unwrap_or};
ghost use Rattle.ht_lines.specs.Content.{clear_line, module_line, node_line, raw_allocation_line, raw_free_line, version_line};
ghost use Rattle.hp_num.specs.Extends.{Extends};
ghost use Rattle.ht_lines.specs.Fields.{numbers};
ghost use Rattle.ht_lines.specs.ItemContent.{content};
ghost use Rattle.ht_lines.specs.Reads.{RangesFit};
ghost use Rattle.ht_lines.specs.Written.{IsWritable};
ghost use Rattle.ht_lines.specs.declared.item.Form.TheVariants.{Raw};
ghost use Rattle.ht_trace.specs.VersionLines.{may_stand_first};
ghost use Rattle.interpret.specs.Interpreted.{text_of};
ghost use Rattle.interpret.specs.InterpreterState.{OfItsLines, StandsFor, failed_with};
ghost use Rattle.interpret.specs.NextLine.{AddsLine, RefusesLine};
ghost use Rattle.interpret.specs.RawFault.{raw_end_fault};
ghost use Rattle.interpret.specs.TakesLine.{HasRead, HasRefused, Takes, TakesOrRefuses, TakesSaid, TakesSilent};

use crate::allocation_lines::{put_allocation, put_free};
use crate::infos::{AllocationInfo, InfoSet};
use crate::known_ips::{KnownIps, Numbered};
use crate::modules::ModuleList;
use crate::name_table::NameTable;
use crate::node_lines::{NewNode, add_held_node, add_new_node};
use crate::pointers::Pointers;
use crate::resolved::resolve;
use crate::symbols::Symbols;
use hp_num::put_bytes;
use ht_lines::{Form, Item, put_item, read_item};
use ht_trace::{LineError, may_stand_first};
use stack_table::Nodes;
use std::alloc::Global;
use std::marker::Model;

/// The interpretation of a raw trace: it stands for the lines that were read so far.
///
/// Contracts see the symbols, the file version, the tables of modules, names, instructions, nodes and infos, the pointers
/// that stand for blocks, and the fault after which no line is taken. Memory grows with the tables and with the pointers,
/// and never with lines.
#[derive(Drop)]
pub struct Interpreter {
    pub(crate) symbols: Symbols,
    pub(crate) version: Option<u8>,
    pub(crate) modules: ModuleList,
    pub(crate) names: NameTable,
    pub(crate) known: KnownIps,
    pub(crate) nodes: Nodes,
    pub(crate) infos: InfoSet,
    pub(crate) pointers: Pointers,
    pub(crate) failed: Option<LineError>,
}

impl Model for Interpreter {
    ghost use Rattle.interpret.specs.InterpreterState.{InterpreterState, IsWithin};
    ghost use Rattle.interpret.specs.RawTables.{RawTables};

    ghost Value = { InterpreterState };

    ghost view = { λ interpreter. record {
      symbols = interpreter.symbols;
      version = interpreter.version;
      tables = record {
        loaded = interpreter.modules;
        names = interpreter.names;
        known = interpreter.known;
        nodes = interpreter.nodes;
        infos = interpreter.infos;
      };
      pointers = interpreter.pointers;
      failed = interpreter.failed;
    } };

    ghost invariant = { λ interpreter.
        IsWithin interpreter.version interpreter.names interpreter.known interpreter.nodes
        interpreter.infos };
}

impl Interpreter {
    /// The interpretation of no lines, with these symbols. It takes no memory; that of the tables to come is taken from
    /// `alloc`.
    pub fn new(alloc: Global, symbols: Symbols) -> Self
        ensures { StandsFor result symbols [] }
    {
        Interpreter {
            symbols,
            version: None,
            modules: ModuleList::new(alloc),
            names: NameTable::new(alloc),
            known: KnownIps::new(alloc),
            nodes: Nodes::new(alloc),
            infos: InfoSet::new(alloc),
            pointers: Pointers::new(alloc),
            failed: None,
        }
    }

    /// Reads the next line of a raw trace, without its line feed, and appends the lines of the interpreted trace that it
    /// gives, each with its line feed.
    ///
    /// A line is refused exactly where it has a fault after the lines before it, or memory is wanting, in place of any
    /// answer; `out` then holds what it held before. `NoVersion` comes first, then the refusals of the grammar, then
    /// `SecondVersion`, `UnknownParent`, `UnknownTrace`, `TooDeep` and `TooMany`. After `TooMany` and `NoMemory` it answers
    /// that fault from then on; after every other the interpreter still stands for the lines before.
    pub fn line(&mut self, line: &[u8], out: &mut Vec<u8>) -> Result<(), LineError>
        requires { length line.now < 2 ^ 32 }
        ensures adds { OnOk result
            (AddsLine self.old self.new line.now out.old.items out.new.items) }
        ensures refuses { IfErr result (λ error. RefusesLine self.old self.new line.now error) }
        ensures symbols { self.new.symbols ≡ self.old.symbols }
        ensures out_unchanged { OnErr result (out.new.items ≡ out.old.items) }
        // A fault that stays is answered.
        ensures failed { IfSome self.old.failed
            (λ error. (result ≡ Err error) × (self.new ≡ self.old)) }
    {
        if let Some(error) = self.failed {
            return Err(error);
        }
        let start = out.len();
        let done = self.take_line(line, out);
        if let Err(error) = done {
            out.truncate(start);
            self.keep_fault(error);
        }
        done
    }

    /// Whether a version line was read: `NoVersion` exactly where none was. It takes no memory.
    pub fn end(&self) -> Result<(), LineError>
        ensures no_version { (result ≡ Err LineError.NoVersion) ↔ IsNone self.now.version }
        ensures only { IfErr result (λ error. error ≡ LineError.NoVersion) }
        ensures no_fault { OnOk result
            (OfItsLines self.now (λ _ lines. raw_end_fault lines ≡ None)) }
        ensures fault { IfErr result
            (λ error. OfItsLines self.now (λ _ lines. raw_end_fault lines ≡ Some error)) }
    {
        if self.version.is_none() {
            return Err(LineError::NoVersion);
        }
        Ok(())
    }

    /// Reads the next line. After an error more bytes may stand at the end of `out`.
    fn take_line(&mut self, line: &[u8], out: &mut Vec<u8>) -> Result<(), LineError>
        requires { length line.now < 2 ^ 32 }
        ensures read { OnOk result
            (HasRead self.old self.new line.now out.old.items out.new.items) }
        ensures refused { IfErr result (λ error. HasRefused self.old self.new line.now error) }
        ensures kept { Extends out.old.items out.new.items }
    {
        if self.version.is_none() && !may_stand_first(line) {
            return Err(LineError::NoVersion);
        }
        let item = read_item(Form::Raw, self.version.unwrap_or(1), line)?;
        self.take(line, &item, out)
    }

    /// Takes what a line says.
    fn take(&mut self, line: &[u8], item: &Item, out: &mut Vec<u8>) -> Result<(), LineError>
        requires writable { IsWritable Raw (unwrap_or self.old.version 1) (content item.now) }
        ensures answers { TakesOrRefuses self.old self.new line.now (content item.now) out.old
            out.new result }
        ensures kept { Extends out.old.items out.new.items }
    {
        match *item {
            Item::Version { heaptrack, file } => self.set_version(heaptrack, file, out),
            Item::ModuleClear => {
                self.clear_modules();
                Ok(())
            }
            Item::Module {
                name,
                start,
                tail,
                ..
            } => self.add_module(name, start, tail),
            Item::Node { ip, parent } => self.add_node(ip, parent, out),
            Item::RawAlloc { size, trace, ptr } => self.allocate(size, trace, ptr, out),
            Item::RawFree { ptr } => self.free(ptr, out),
            Item::Executable { .. }
            | Item::Command { .. }
            | Item::System { .. }
            | Item::Str { .. }
            | Item::Instr { .. }
            | Item::Info { .. }
            | Item::Alloc { .. }
            | Item::Free { .. }
            | Item::Clock { .. }
            | Item::Rss { .. }
            | Item::Attached
            | Item::Suppress { .. }
            | Item::Comment { .. }
            | Item::Other { .. } => put_line(out, line),
        }
    }

    /// Keeps a fault after which no line is taken.
    fn keep_fault(&mut self, error: LineError)
        ensures kept { self.new ≡ record self.old { failed = failed_with self.old.failed error } }
    {
        match error {
            LineError::TooMany | LineError::NoMemory => self.failed = Some(error),
            _ => {}
        }
    }
}

// What each kind of line does.
impl Interpreter {
    fn set_version(&mut self, heaptrack: u64, file: u8, out: &mut Vec<u8>) -> Result<(), LineError>
        requires low { 1 ≤ file }
        requires high { file ≤ 3 }
        ensures answers { TakesSaid self.old self.new (version_line heaptrack file) out.old out.new
            result }
        ensures kept { Extends out.old.items out.new.items }
    {
        if self.version.is_some() {
            return Err(LineError::SecondVersion);
        }
        put_item(1, &Item::Version { heaptrack, file }, out)?;
        self.version = Some(file);
        Ok(())
    }

    fn clear_modules(&mut self)
        ensures { (line before : List ℕ) → Takes self.old self.new line clear_line before before }
    {
        self.modules.clear();
    }

    fn add_module(&mut self, name: &[u8], start: u64, tail: &[u8]) -> Result<(), LineError>
        requires fit { RangesFit start (numbers tail.now) }
        ensures { TakesSilent self.old self.new (module_line name.now start (numbers tail.now))
            result }
    {
        self.modules.add(name, start, tail)?;
        Ok(())
    }

    fn add_node(&mut self, ip: u64, parent: u64, out: &mut Vec<u8>) -> Result<(), LineError>
        ensures answers { TakesSaid self.old self.new (node_line ip parent) out.old out.new result }
        ensures kept { Extends out.old.items out.new.items }
    {
        if let Some(instruction) = self.known.find(ip) {
            add_held_node(&mut self.nodes, instruction, parent, out)?;
            return Ok(());
        }
        let version = self.version.unwrap_or(1);
        let found = resolve(&self.symbols, &self.modules, ip);
        add_new_node(
            &mut self.names,
            &mut self.known,
            &mut self.nodes,
            version,
            &NewNode {
                instruction: &found,
                parent,
            },
            out,
        )?;
        Ok(())
    }

    fn allocate(
        &mut self,
        size: u64,
        trace: u64,
        ptr: u64,
        out: &mut Vec<u8>,
    ) -> Result<(), LineError>
        ensures answers { TakesSaid self.old self.new (raw_allocation_line size trace ptr) out.old
            out.new result }
        ensures kept { Extends out.old.items out.new.items }
    {
        if trace > u64::from(self.nodes.len()) {
            return Err(LineError::UnknownTrace);
        }
        let version = self.version.unwrap_or(1);
        let info = put_allocation(
            &mut self.infos,
            version,
            AllocationInfo { size, trace },
            out,
        )?;
        self.pointers.set(ptr, info)?;
        Ok(())
    }

    pub(crate) fn free(&mut self, ptr: u64, out: &mut Vec<u8>) -> Result<(), LineError>
        ensures answers { TakesSaid self.old self.new (raw_free_line ptr) out.old out.new result }
        ensures kept { Extends out.old.items out.new.items }
        ensures untaken { OnErr result (self.new ≡ self.old) }
        ensures unwritten { OnErr result (out.new.items ≡ out.old.items) }
    {
        put_free(&mut self.pointers, ptr, out)?;
        Ok(())
    }
}

/// Appends a line as it is, and its line feed. On `NoMemory`, a part of it may stand at the end of `out`.
fn put_line(out: &mut Vec<u8>, line: &[u8]) -> Result<(), LineError>
    ensures appended { OnOk result (out.new.items ≡ out.old.items ++ text_of (line.now ∷ [])) }
    ensures only { IfErr result (λ error. error ≡ LineError.NoMemory) }
    ensures kept { Extends out.old.items out.new.items }
{
    put_bytes(out, line)?;
    put_bytes(out, b"\n")?;
    Ok(())
}
